//! A graph over numbers that grows step by step.

ghost use Rattle.std.specs.Prelude.{◌≡◌, ℕ, ◌<◌, length, All, Contains, OnOk};
ghost use Rattle.reset_trees.specs.Graph.{AddsSteps};

use rdc_outside::Seq;
use std::alloc::AllocError;

/// A step from m to n.
fn push_step(steps: &mut [Seq<u32>], m: u32, n: u32) -> Result<(), AllocError>
    requires { m < length steps.old }
    ensures { OnOk result (AddsSteps (λ i j. (i ≡ m) × (j ≡ n)) steps.old steps.new) }
{
    steps[m as usize].push(n)
}

/// A step from each of some numbers to n.
pub(crate) fn push_each(steps: &mut [Seq<u32>], numbers: &[u32], n: u32) -> Result<(), AllocError>
    requires { All (λ m. m < length steps.old) numbers.now }
    ensures { OnOk result (AddsSteps (λ i j. Contains numbers.now i × (j ≡ n)) steps.old steps.new) }
{
    'numbers: for m in numbers {
        push_step(steps, *m, n)?;
    }
    Ok(())
}
