//! The loop that a walk has met.

ghost use Rattle.std.specs.Prelude.{ℕ, List, reverse, IfOk, All};
ghost use Rattle.net_order.specs.Loops.{IsLoop, IsNeeded};
ghost use Rattle.net_order.specs.Walk.{IsUnder, IsChain, HasLeave};

use crate::step::Step;
use std::alloc::{AllocError, Global};

/// The gates from an entered one on, each of which reads the next; the last reads the first.
pub(crate) fn loop_at(
    alloc: Global,
    mut steps: Vec<Step>,
    start: u32,
) -> Result<Vec<u32>, AllocError>
    requires { HasLeave start (reverse steps.items) }
    ensures loops { IfOk result (λ v. (reads : ℕ → List ℕ) (roots : List ℕ) → IsUnder reads roots start (reverse steps.items)
        → IsChain reads roots (reverse steps.items) → IsLoop reads v.items) }
    ensures needed { IfOk result (λ v. (reads : ℕ → List ℕ) (roots : List ℕ) → IsChain reads roots (reverse steps.items)
        → All (IsNeeded reads roots) v.items) }
{
    let mut found = Vec::new(alloc);
    'steps: while let Some(step) = steps.pop() {
        match step {
            Step::Visit(_) => {}
            Step::Leave(k) => {
                found.push(k)?;
                if k == start {
                    found.reverse();
                    return Ok(found);
                }
            }
        }
    }
    unreachable!()
}
