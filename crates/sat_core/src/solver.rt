//! The search: choices in the order of the variables, and a derived clause wherever they make one false.
ghost use Rattle.std.specs.Prelude.{◌≡◌, ◌≢◌, ℕ, ◌<◌, [], ◌∷◌, length, slice_index_or, Some, IfOk, MatchBool};
ghost use Rattle.sat_core.specs.Answers.{IsWithin, IsAnswer, IsSound};
ghost use Rattle.sat_core.specs.Path.{IsPath};

use crate::answers::{Answer, SolveFault};
use crate::derive::derive;
use crate::path::{Path, new_path, values};
use crate::scan::find_false;
use rdc_ids::Id;
use sat_chain::{Chain, ChainLine, Clause, Clauses};
use std::alloc::Global;

/// Whether so many conflicts are the budget.
fn is_spent(budget: Option<u64>, count: u64) -> bool
    ensures { MatchBool result (budget ≡ Some count) (budget ≢ Some count) }
{
    match budget {
        None => false,
        Some(most) => most == count,
    }
}

/// The same clauses, to which derived ones are added.
fn copied(alloc: Global, clauses: &Clauses) -> Result<Clauses, SolveFault>
    requires { (k : ℕ) → k < length clauses.now.clauses → 0 < length (slice_index_or clauses.now.clauses k []) }
    ensures { IfOk result (λ store. store ≡ clauses.now) }
{
    let count = clauses.len();
    let mut store = Clauses::new(alloc, clauses.vars());
    for n in 0..count {
        let Some(id) = clauses.try_id(n) else {
            return Ok(store);
        };
        store.add(clauses.lits(id))?;
    }
    Ok(store)
}

/// An empty clause that stands there, as a line.
fn empty_line(alloc: Global, id: Id<Clause>) -> Result<ChainLine, SolveFault>
    ensures { IfOk result (λ line. (line.from.items ≡ id ∷ []) × (line.lits.items ≡ [])) }
{
    let mut from = Vec::new(alloc);
    from.push(id)?;
    Ok(ChainLine {
        from,
        lits: Vec::new(alloc),
    })
}

/// The answer for clauses none of which is empty, from a path with no variable set.
fn search(
    alloc: Global,
    clauses: Clauses,
    start: Path,
    budget: Option<u64>,
) -> Result<Answer, SolveFault>
    requires path { IsPath clauses.vars clauses.clauses start.signs.items start.reasons.items start.top }
    requires start { start.top ≡ 0 }
    requires within { IsWithin budget 0 }
    ensures { IfOk result (λ answer. IsAnswer clauses budget answer) }
{
    let mut store = clauses;
    let mut path = start;
    let mut lines = Vec::new(alloc);
    'turns: loop {
        let _count = store.len();
        let top = path.top;
        let Some(id) = find_false(&store, path.signs.as_slice(), top) else {
            if top == store.vars() as usize {
                return Ok(Answer::Model(values(alloc, path.signs.as_slice())?));
            }
            path.choose();
            continue;
        };
        if path.is_choice() {
            path.turn(top, id);
            continue;
        }
        let (line, at) = derive(alloc, &store, &path, id)?;
        if at == 0 {
            lines.push(line)?;
            return Ok(Answer::Refuted(Chain { lines }));
        }
        let id = store.add(line.lits.as_slice())?;
        lines.push(line)?;
        path.turn(at, id);
        if is_spent(budget, lines.len() as u64) {
            return Ok(Answer::Spent(Chain { lines }));
        }
    }
}

/// The answer, by its clauses alone.
fn answer(alloc: Global, clauses: &Clauses, budget: Option<u64>) -> Result<Answer, SolveFault>
    ensures { IfOk result (λ answer. IsAnswer clauses.now budget answer) }
{
    let _count = clauses.len();
    if is_spent(budget, 0) {
        let lines = Vec::new(alloc);
        return Ok(Answer::Spent(Chain { lines }));
    }
    let path = new_path(alloc, clauses.vars())?;
    // With no variable set a clause is false where it is empty.
    if let Some(id) = find_false(clauses, path.signs.as_slice(), 0) {
        let line = empty_line(alloc, id)?;
        let mut lines = Vec::new(alloc);
        lines.push(line)?;
        return Ok(Answer::Refuted(Chain { lines }));
    }
    let store = copied(alloc, clauses)?;
    search(alloc, store, path, budget)
}

/// A model of clauses, or a chain that refutes them, or one of as many new clauses as the budget. It always ends.
pub fn solve(alloc: Global, clauses: &Clauses, budget: Option<u64>) -> Result<Answer, SolveFault>
    ensures value { IfOk result (λ answer. IsAnswer clauses.now budget answer) }
    ensures sound { IfOk result (λ answer. IsSound clauses.now answer) }
{
    let _count = clauses.len();
    answer(alloc, clauses, budget)
}
