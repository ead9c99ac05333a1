//! What can be reached in a graph over numbers.

ghost use Rattle.std.specs.Prelude.{◌≡◌, ℕ, ◌<◌, length, All, Contains, OnOk, IfOk};
ghost use Rattle.net_view.specs.Cone.{Lists};
ghost use Rattle.reset_trees.specs.Reach.{IsStep, Reaches, IsFound, Visits};

use rdc_outside::Seq;
use std::alloc::{AllocError, Global};

/// Lists the numbers that aren't marked yet, and marks them.
fn visit(numbers: &[u32], marks: &mut [bool], found: &mut Vec<u32>) -> Result<(), AllocError>
    requires inside { All (λ n. n < length marks.old) numbers.now }
    requires found { IsFound marks.old found.old.items }
    ensures found { OnOk result (IsFound marks.new found.new.items) }
    ensures visits { OnOk result (Visits numbers.now found.old.items found.new.items) }
{
    'numbers: for n in numbers {
        if !marks[*n as usize] {
            marks[*n as usize] = true;
            found.push(*n)?;
        }
    }
    Ok(())
}

/// All that the steps lead to from the seeds on, ascending.
pub(crate) fn reached(
    alloc: Global,
    steps: &[Seq<u32>],
    seeds: &[u32],
) -> Result<Vec<u32>, AllocError>
    requires closed { (m n : ℕ) → IsStep steps.now m n → n < length steps.now }
    requires seeds { All (λ n. n < length steps.now) seeds.now }
    ensures { IfOk result (λ found. Lists (Reaches (IsStep steps.now) (Contains seeds.now)) found.items) }
{
    let mut marks = vec![in alloc; false; steps.len()]?;
    let mut found = Vec::new(alloc);
    visit(seeds, &mut marks, &mut found)?;
    let mut at = 0;
    'found: while at < found.len() {
        let n = found[at];
        visit(steps[n as usize].as_slice(), &mut marks, &mut found)?;
        at += 1;
    }
    found.sort_unstable();
    Ok(found)
}
