//! The answer to a derived clause.
ghost use Rattle.std.specs.Prelude.{◌≡◌, ◌+◌, ◌-◌, ◌<◌, ◌≤◌, length};
ghost use Rattle.std.specs.List.{All};
ghost use Rattle.sat_chain.specs.Clause.{variable, AreClauses};
ghost use Rattle.sat_chain.specs.Answer.{DerivedAnswer};
ghost use Rattle.sat_chain.specs.Store.{cut, IsCut};
ghost use Rattle.sat_chain.specs.Marks.{at, nothing};

use crate::fault::{ChainFault, Seen};
use crate::marks::{ascends, left_by};
use crate::resolution::{forget_all, knows_all, unite};

/// Whether the literals are the resolvent of the cited clauses. The marks are empty before and after it.
pub fn judge(
    marks: &mut [Option<bool>],
    lits: &[i32],
    bounds: &[usize],
    chain: &[u64],
    literals: &[i32],
) -> Result<Seen, ChainFault>
    requires places { IsCut (length lits.now) bounds.now }
    requires clauses { AreClauses (length marks.old - 1) (cut bounds.now lits.now) }
    requires marks { 0 < length marks.old }
    requires emptied { at marks.old ≡ nothing }
    requires some { 0 < length chain.now }
    requires within { All (λ l. variable l < length marks.old) literals.now }
    ensures value { DerivedAnswer (cut bounds.now lits.now) chain.now literals.now result }
    ensures emptied { at marks.new ≡ nothing }
{
    let count = (bounds.len() - 1) as u64;
    if !knows_all(count, chain) {
        return Err(ChainFault::NoClause);
    }
    let live = match unite(marks, lits, bounds, chain) {
        Ok(live) => live,
        Err(live) => {
            forget_all(marks, live, lits, bounds, chain);
            return Err(ChainFault::NoPivot);
        }
    };
    if !ascends(literals) {
        forget_all(marks, live, lits, bounds, chain);
        return Err(ChainFault::NotResolvent);
    }
    if let Some(left) = left_by(marks, live, literals) {
        forget_all(marks, left, lits, bounds, chain);
        return Err(ChainFault::NotResolvent);
    }
    if literals.is_empty() {
        Ok(Seen::Empty)
    } else {
        Ok(Seen::Added)
    }
}
