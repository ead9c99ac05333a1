//! The clause that comes of a false one: the reasons of its variables are resolved away, down to a choice.
ghost use Rattle.std.specs.Prelude.{◌≡◌, ℕ, ◌+◌, ◌^◌, ◌<◌, ◌≤◌, ◌||◌, [], length, slice_index_or, Some, None, false, true, IfOk};
ghost use Rattle.std.specs.List.{All};
ghost use Rattle.sat_chain.specs.Clause.{variable};
ghost use Rattle.sat_chain.specs.Text.{signed};
ghost use Rattle.sat_chain.specs.Resolvent.{resolvent};
ghost use Rattle.sat_core.specs.Path.{sign_at, is_false, IsReason, IsPath};
ghost use Rattle.sat_core.specs.Marked.{union_at, stands_in, literals_from, IsMarked, ComeTo, IsDerived};

use crate::answers::SolveFault;
use crate::path::Path;
use rdc_ids::Id;
use sat_chain::{ChainLine, Clause, Clauses};
use std::alloc::Global;

/// The literal of a sign and a variable.
fn signed_literal(positive: bool, variable: usize) -> i32
    requires { variable < 2 ^ 31 }
    ensures { result ≡ signed positive variable }
{
    let literal = variable as i32;
    if positive { literal } else { -literal }
}

/// Marks the variables of a clause.
fn mark(marks: &mut [bool], clause: &[i32])
    requires { All (λ l. variable l < length marks.old) clause.now }
    ensures { (x : ℕ) → sign_at marks.new x ≡ (sign_at marks.old x || stands_in clause.now x) }
{
    for lit in clause {
        let variable = lit.unsigned_abs() as usize;
        marks[variable] = true;
    }
}

/// The literals of the marked variables up to the last one, each with the sign that is false.
fn literals(
    alloc: Global,
    signs: &[bool],
    marks: &[bool],
    last: usize,
) -> Result<Vec<i32>, SolveFault>
    requires few { last < 2 ^ 31 }
    requires signs { last < length signs.now }
    requires marks { last < length marks.now }
    ensures { IfOk result (λ lits. lits.items ≡ literals_from (sign_at signs.now) (sign_at marks.now) 1 last) }
{
    let mut lits = Vec::new(alloc);
    for variable in 1..last + 1 {
        if !marks[variable] {
            continue;
        }
        let lit = signed_literal(!signs[variable], variable);
        lits.push(lit)?;
    }
    Ok(lits)
}

/// The marks of a clause, of so many variables.
fn marks_of(alloc: Global, count: usize, clause: &[i32]) -> Result<Vec<bool>, SolveFault>
    requires { All (λ l. variable l < count) clause.now }
    ensures len { IfOk result (λ marks. length marks.items ≡ count) }
    ensures value { IfOk result (λ marks. (x : ℕ) → sign_at marks.items x ≡ stands_in clause.now x) }
{
    let mut marks = Vec::from_elem(alloc, false, count)?;
    mark(marks.as_mut_slice(), clause);
    Ok(marks)
}

/// Resolves the marked clause with the reason of its last variable.
fn resolve(store: &Clauses, signs: &[bool], marks: &mut [bool], at: usize, reason: Id<Clause>)
    requires len { length marks.old ≡ store.now.vars + 1 }
    requires within { at < length marks.old }
    requires reason { IsReason store.now.clauses (sign_at signs.now) at reason }
    requires last { sign_at marks.old at ≡ true }
    requires marked { IsMarked (sign_at marks.old) at }
    ensures step { resolvent (union_at (sign_at signs.now) (sign_at marks.old)) (slice_index_or store.now.clauses reason []) ≡ Some (union_at (sign_at signs.now) (sign_at marks.new)) }
    ensures marked { (n : ℕ) → n + 1 ≡ at → IsMarked (sign_at marks.new) n }
{
    let _count = store.len();
    mark(marks, store.lits(reason));
    marks[at] = false;
}

/// Resolves the marked clause with the reasons of its variables, from the last one down to a choice. Answers the
/// choice, or 0 where nothing is left.
fn resolve_down(
    store: &Clauses,
    path: &Path,
    marks: &mut [bool],
    from: &mut Vec<Id<Clause>>,
) -> Result<usize, SolveFault>
    requires path { IsPath store.now.vars store.now.clauses path.now.signs.items path.now.reasons.items path.now.top }
    requires len { length marks.old ≡ store.now.vars + 1 }
    requires marked { IsMarked (sign_at marks.old) path.now.top }
    requires union { ComeTo store.now.clauses from.old.items (union_at (sign_at path.now.signs.items) (sign_at marks.old)) }
    ensures within { IfOk result (λ at. at ≤ path.now.top) }
    ensures choice { IfOk result (λ at. 0 < at → slice_index_or path.now.reasons.items at None ≡ None) }
    ensures last { IfOk result (λ at. 0 < at → sign_at marks.new at ≡ true) }
    ensures marked { IfOk result (λ at. IsMarked (sign_at marks.new) at) }
    ensures union { IfOk result (λ at. ComeTo store.now.clauses from.new.items (union_at (sign_at path.now.signs.items) (sign_at marks.new))) }
{
    let mut at = path.top;
    while at > 0 {
        if !marks[at] {
            at -= 1;
            continue;
        }
        let Some(reason) = path.reasons[at] else {
            return Ok(at);
        };
        from.push(reason)?;
        resolve(store, path.signs.as_slice(), marks, at, reason);
        at -= 1;
    }
    Ok(0)
}

/// The line that comes of a false clause, and the choice that is its last variable, or 0 where it is empty.
pub fn derive(
    alloc: Global,
    store: &Clauses,
    path: &Path,
    id: Id<Clause>,
) -> Result<(ChainLine, usize), SolveFault>
    requires path { IsPath store.now.vars store.now.clauses path.now.signs.items path.now.reasons.items path.now.top }
    requires known { id < length store.now.clauses }
    requires now { is_false (sign_at path.now.signs.items) path.now.top (slice_index_or store.now.clauses id []) ≡ true }
    ensures { IfOk result (λ r. IsDerived store.now.vars store.now.clauses (sign_at path.now.signs.items) path.now.reasons.items path.now.top r.0 r.1) }
{
    let _count = store.len();
    let mut marks = marks_of(alloc, store.vars() as usize + 1, store.lits(id))?;
    let mut from = Vec::new(alloc);
    from.push(id)?;
    let at = resolve_down(store, path, marks.as_mut_slice(), &mut from)?;
    let lits = literals(alloc, path.signs.as_slice(), marks.as_slice(), at)?;
    Ok((ChainLine { from, lits }, at))
}
