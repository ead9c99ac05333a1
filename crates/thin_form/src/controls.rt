//! Processes by number, without what their registers take.

ghost use Rattle.std.specs.Prelude.{◌≡◌, ◌<◌, ◌^◌, map, length, IfOk, IsTrue, MatchOption};
ghost use Rattle.std.specs.List.{AllByRecursion};
ghost use Rattle.std.specs.Result.{IsErrOf};
ghost use Rattle.thin_tree.specs.Written.{a_process, texts};
ghost use Rattle.thin_form.specs.Design.{IsAscending};
ghost use Rattle.thin_form.specs.Rules.{is_among};
ghost use Rattle.thin_form.specs.Numbers.{AreLists, IsControlled, flop_of, AreInputs, AreMarked};
ghost use Rattle.thin_form.specs.Listed.{lists};
ghost use Rattle.thin_form.specs.Order.{all_processes};

use crate::assigned::Clocked;
use crate::kind::Flop;
use crate::names::{Names, input, place_in};
use std::alloc::Global;
use thin_tree::{FormFault, Process};

/// A mark at each source that is a clock, where each clock is an input.
pub(crate) fn clocks(
    alloc: Global,
    inputs: &[&[u8]],
    sources: &[&[u8]],
    processes: &[Clocked],
) -> Result<Vec<bool>, FormFault>
    requires few_inputs { length inputs.now < 2 ^ 32 }
    requires few_sources { length sources.now < 2 ^ 32 }
    requires inputs_ascend { IsAscending (texts inputs.now) }
    requires sources_ascend { IsAscending (texts sources.now) }
    ensures len { IfOk result (λ v. length v.items ≡ length sources.now) }
    ensures inputs { IfOk result (λ v. AreInputs (texts inputs.now) (all_processes processes.now)) }
    ensures marked { IfOk result (λ v. AreMarked (texts sources.now) (all_processes processes.now) v.items) }
    ensures not_of_form { IsErrOf result FormFault.NotOfForm → AreInputs (texts inputs.now) (all_processes processes.now) → ((name : _) → IsTrue (is_among name (texts inputs.now)) → IsTrue (is_among name (texts sources.now))) → ⊥ }
{
    let mut marks = vec![in alloc; false; sources.len()]?;
    for p in processes {
        let Some(_) = place_in(inputs, p.of.clock) else {
            return Err(FormFault::NotOfForm);
        };
        let Some(n) = place_in(sources, p.of.clock) else {
            return Err(FormFault::NotOfForm);
        };
        marks[n as usize] = true;
    }
    Ok(marks)
}

/// The flop of a process that keeps its rules, without its data.
fn control(names: &Names, p: &Process) -> Option<Flop>
    requires { AreLists (lists names.now) }
    ensures { MatchOption result (IsControlled (lists names.now) (a_process p.now) → ⊥) (λ f. IsControlled (lists names.now) (a_process p.now) × (f ≡ flop_of (lists names.now) (a_process p.now))) }
{
    if p.negated != p.falling || p.tested != p.event || p.loaded != p.cleared {
        return None;
    }
    let clock = input(names, p.clock)?;
    let pin = input(names, p.event)?;
    if names.clocks[pin as usize] {
        return None;
    }
    let data = 0;
    let high = !p.falling;
    let reset = p.value;
    Some(Flop {
        clock,
        pin,
        high,
        reset,
        data,
    })
}

/// The flops of processes that keep their rules, without their data.
pub(crate) fn controls(
    alloc: Global,
    names: &Names,
    processes: &[Clocked],
) -> Result<Vec<Flop>, FormFault>
    requires { AreLists (lists names.now) }
    ensures flops { IfOk result (λ v. v.items ≡ map (flop_of (lists names.now)) (all_processes processes.now)) }
    ensures each { IfOk result (λ v. AllByRecursion (IsControlled (lists names.now)) (all_processes processes.now)) }
    ensures not_of_form { IsErrOf result FormFault.NotOfForm → AllByRecursion (IsControlled (lists names.now)) (all_processes processes.now) → ⊥ }
{
    let mut flops = Vec::new(alloc);
    for p in processes {
        let Some(flop) = control(names, p.of) else {
            return Err(FormFault::NotOfForm);
        };
        flops.push(flop)?;
    }
    Ok(flops)
}
