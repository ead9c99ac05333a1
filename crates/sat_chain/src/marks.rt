//! Marks by variable: the union between the steps of a derivation, in place.
ghost use Rattle.std.specs.Prelude.{◌≡◌, ◌≢◌, ℕ, ◌+◌, ◌<◌, ◌≤◌, ◌↔◌, ◌==◌, length, Some, None, true, false, if◌then◌else◌, IsTrue, MatchBool, MatchOption};
ghost use Rattle.std.specs.List.{All};
ghost use Rattle.sat_chain.specs.Clause.{variable, is_positive, ascends_above};
ghost use Rattle.sat_chain.specs.Resolvent.{sign_in, is_opposite, resolvent};
ghost use Rattle.sat_chain.specs.Marks.{at, set_at, nothing, live_in, put, merged, turned};

/// The variable of a literal.
#[inline]
pub fn variable_of(lit: &i32) -> u32
    ensures { result ≡ variable lit.now }
{
    lit.unsigned_abs()
}

/// Whether a literal is positive.
#[inline]
pub fn sign_of(lit: &i32) -> bool
    ensures { result ≡ is_positive lit.now }
{
    *lit >= 0
}

/// Whether the variables ascend from 1.
pub fn ascends(lits: &[i32]) -> bool
    ensures { result ≡ ascends_above 0 lits.now }
{
    let mut last = 0;
    for lit in lits {
        let variable = variable_of(lit);
        if variable <= last {
            return false;
        }
        last = variable;
    }
    true
}

/// Puts a literal into the union. Answers how many variables stand in it then, and 1 if the literal's cancelled.
#[inline]
fn put_in(marks: &mut [Option<bool>], live: usize, lit: &i32) -> (usize, usize)
    requires within { variable lit.now < length marks.old }
    requires live { live ≡ live_in marks.old }
    ensures union { at marks.new ≡ put (at marks.old) lit.now }
    ensures live { result.0 ≡ live_in marks.new }
    ensures turned { result.1 ≡ (if is_opposite (at marks.old (variable lit.now)) (is_positive lit.now) then 1 else 0) }
    ensures one { result.1 ≤ 1 }
{
    let _bound = marks.len();
    let variable = variable_of(lit) as usize;
    let positive = sign_of(lit);
    match marks[variable] {
        None => {
            marks[variable] = Some(positive);
            (live + 1, 0)
        }
        Some(sign) => {
            if sign == positive {
                return (live, 0);
            }
            marks[variable] = None;
            (live - 1, 1)
        }
    }
}

/// Puts a clause into the union. Answers how many variables stand in it then, and how many cancelled.
pub fn merge(marks: &mut [Option<bool>], live: usize, clause: &[i32]) -> (usize, usize)
    requires within { All (λ l. variable l < length marks.old) clause.now }
    requires live { live ≡ live_in marks.old }
    ensures union { at marks.new ≡ merged (at marks.old) clause.now }
    ensures live { result.0 ≡ live_in marks.new }
    ensures turned { result.1 ≡ turned (at marks.old) clause.now }
{
    let mut live = live;
    let mut turned = 0;
    for lit in clause {
        let (now, more) = put_in(marks, live, lit);
        live = now;
        turned += more;
    }
    (live, turned)
}

/// Takes a literal out of the union, if it stands there.
#[inline]
fn take_out(marks: &mut [Option<bool>], lit: &i32) -> bool
    requires { variable lit.now < length marks.old }
    ensures value { IsTrue result ↔ (at marks.old (variable lit.now) ≡ Some (is_positive lit.now)) }
    ensures kept { result ≡ false → marks.new ≡ marks.old }
    ensures union { IsTrue result → at marks.new ≡ set_at (at marks.old) (variable lit.now) None }
    ensures live { IsTrue result → live_in marks.new + 1 ≡ live_in marks.old }
{
    let variable = variable_of(lit) as usize;
    match marks[variable] {
        None => false,
        Some(sign) => {
            if sign != sign_of(lit) {
                return false;
            }
            marks[variable] = None;
            true
        }
    }
}

/// Takes the literals out of the union, of which so many variables stand in it. None where they are exactly the union,
/// which is empty then; else how many are left.
pub fn left_by(marks: &mut [Option<bool>], live: usize, lits: &[i32]) -> Option<usize>
    requires within { All (λ l. variable l < length marks.old) lits.now }
    requires ascends { ascends_above 0 lits.now ≡ true }
    requires live { live ≡ live_in marks.old }
    ensures { MatchOption result (((x : ℕ) → at marks.old x ≡ sign_in lits.now x) × (at marks.new ≡ nothing))
        (λ left. (((x : ℕ) → at marks.old x ≡ sign_in lits.now x) → ⊥) × (left ≡ live_in marks.new)) }
{
    let mut live = live;
    for lit in lits {
        if !take_out(marks, lit) {
            return Some(live);
        }
        live -= 1;
    }
    if live == 0 { None } else { Some(live) }
}

/// Takes the variable of a literal out of the union. Answers how many variables are left.
#[inline]
fn clear(marks: &mut [Option<bool>], live: usize, lit: &i32) -> usize
    requires within { variable lit.now < length marks.old }
    requires live { live ≡ live_in marks.old }
    ensures { result ≡ live_in marks.new }
{
    let variable = variable_of(lit) as usize;
    match marks[variable] {
        None => live,
        Some(_) => {
            marks[variable] = None;
            live - 1
        }
    }
}

/// Takes the variables of a clause out of the union. Answers how many are left.
pub fn forget(marks: &mut [Option<bool>], live: usize, clause: &[i32]) -> usize
    requires within { All (λ l. variable l < length marks.old) clause.now }
    requires live { live ≡ live_in marks.old }
    ensures { result ≡ live_in marks.new }
{
    let mut live = live;
    for lit in clause {
        live = clear(marks, live, lit);
    }
    live
}

/// Empties the union.
pub fn empty(marks: &mut [Option<bool>])
    ensures { at marks.new ≡ nothing }
{
    for mark in marks.iter_mut() {
        *mark = None;
    }
}
