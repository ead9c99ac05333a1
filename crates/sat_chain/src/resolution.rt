//! Derivations: the clauses that a chain cites, resolved one after another.
ghost use Rattle.std.specs.Prelude.{◌≡◌, ℕ, ◌+◌, ◌-◌, ◌<◌, ◌≤◌, length, Some, None, true, MatchResult};
ghost use Rattle.std.specs.List.{list_all};
ghost use Rattle.sat_chain.specs.Clause.{AreClauses};
ghost use Rattle.sat_chain.specs.Resolvent.{clause, resolvent, reached, union_of};
ghost use Rattle.sat_chain.specs.Answer.{is_known, all_known};
ghost use Rattle.sat_chain.specs.Store.{cut, IsCut};
ghost use Rattle.sat_chain.specs.Marks.{at, nothing, live_in};

use crate::marks::{empty, forget, merge};

/// Clause n, counted from 1.
#[inline]
pub fn clause_at<'a>(lits: &'a [i32], bounds: &[usize], n: u64) -> &'a [i32]
    requires from { 0 < n }
    requires to { n < length bounds.now }
    requires places { IsCut (length lits.now) bounds.now }
    ensures { result.now ≡ clause (cut bounds.now lits.now) n }
{
    let n = n as usize;
    let (front, _) = lits.split_at(bounds[n]);
    let (_, clause) = front.split_at(bounds[n - 1]);
    clause
}

/// Whether each number is one of so many clauses'.
pub fn knows_all(count: u64, chain: &[u64]) -> bool
    ensures { result ≡ list_all (is_known count) chain.now }
{
    for n in chain {
        if *n == 0 || *n > count {
            return false;
        }
    }
    true
}

/// Resolves the union with clause n, if it can, and answers how many variables stand in it then.
fn resolve(
    marks: &mut [Option<bool>],
    live: usize,
    lits: &[i32],
    bounds: &[usize],
    n: u64,
) -> Result<usize, usize>
    requires from { 0 < n }
    requires to { n < length bounds.now }
    requires places { IsCut (length lits.now) bounds.now }
    requires clauses { AreClauses (length marks.old - 1) (cut bounds.now lits.now) }
    requires marks { 0 < length marks.old }
    requires live { live ≡ live_in marks.old }
    ensures { MatchResult result (λ now. (resolvent (at marks.old) (clause (cut bounds.now lits.now) n) ≡ Some (at marks.new)) × (now ≡ live_in marks.new)) (λ now. (resolvent (at marks.old) (clause (cut bounds.now lits.now) n) ≡ None) × (now ≡ live_in marks.new)) }
{
    let (now, turned) = merge(marks, live, clause_at(lits, bounds, n));
    if turned == 1 { Ok(now) } else { Err(now) }
}

/// Resolves the union with the cited clauses, one after another.
fn go_on(
    marks: &mut [Option<bool>],
    live: usize,
    lits: &[i32],
    bounds: &[usize],
    chain: &[u64],
) -> Result<usize, usize>
    requires places { IsCut (length lits.now) bounds.now }
    requires clauses { AreClauses (length marks.old - 1) (cut bounds.now lits.now) }
    requires marks { 0 < length marks.old }
    requires live { live ≡ live_in marks.old }
    requires known { all_known (cut bounds.now lits.now) chain.now ≡ true }
    ensures { MatchResult result (λ now. (reached (cut bounds.now lits.now) (at marks.old) chain.now ≡ Some (at marks.new)) × (now ≡ live_in marks.new)) (λ now. (reached (cut bounds.now lits.now) (at marks.old) chain.now ≡ None) × (now ≡ live_in marks.new)) }
{
    let mut live = live;
    for n in chain {
        match resolve(marks, live, lits, bounds, *n) {
            Ok(now) => {
                live = now;
            }
            Err(now) => return Err(now),
        }
    }
    Ok(live)
}

/// The union that the cited clauses come to, in place of the empty one. Answers how many variables stand in it.
pub fn unite(
    marks: &mut [Option<bool>],
    lits: &[i32],
    bounds: &[usize],
    chain: &[u64],
) -> Result<usize, usize>
    requires places { IsCut (length lits.now) bounds.now }
    requires clauses { AreClauses (length marks.old - 1) (cut bounds.now lits.now) }
    requires marks { 0 < length marks.old }
    requires emptied { at marks.old ≡ nothing }
    requires some { 0 < length chain.now }
    requires known { all_known (cut bounds.now lits.now) chain.now ≡ true }
    ensures { MatchResult result (λ live. (union_of (cut bounds.now lits.now) chain.now ≡ Some (at marks.new)) × (live ≡ live_in marks.new)) (λ live. (union_of (cut bounds.now lits.now) chain.now ≡ None) × (live ≡ live_in marks.new)) }
{
    let (_, others) = chain.split_at(1);
    let (live, _) = merge(marks, 0, clause_at(lits, bounds, chain[0]));
    go_on(marks, live, lits, bounds, others)
}

/// Empties the union that came of the cited clauses, of which so many variables stand in it.
pub fn forget_all(
    marks: &mut [Option<bool>],
    live: usize,
    lits: &[i32],
    bounds: &[usize],
    chain: &[u64],
)
    requires places { IsCut (length lits.now) bounds.now }
    requires clauses { AreClauses (length marks.old - 1) (cut bounds.now lits.now) }
    requires marks { 0 < length marks.old }
    requires live { live ≡ live_in marks.old }
    requires known { all_known (cut bounds.now lits.now) chain.now ≡ true }
    ensures { at marks.new ≡ nothing }
{
    let mut live = live;
    for n in chain {
        live = forget(marks, live, clause_at(lits, bounds, *n));
    }
    // What stands came of these clauses, so that nothing is left. The count shows it, and no proof is wanted.
    if live > 0 {
        empty(marks);
    }
}
