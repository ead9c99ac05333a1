//! What the things of a design weigh.
ghost use Rattle.std.specs.Prelude.{◌≡◌, ◌+◌, ℕ, IfOk};
ghost use Rattle.std.specs.List.{sum_by};
ghost use Rattle.design_form.specs.Signals.{bounds_of, width_of};
ghost use Rattle.design_sizes.specs.Sizes.{sized_statement};
ghost use Rattle.elab_names.specs.Answers.{Answers};
ghost use Rattle.elab_weight.specs.Limits.{capped, weighed};
ghost use Rattle.elab_weight.specs.PartWeights.{parts_weight};
ghost use Rattle.elab_weight.specs.Weights.{bits_weight, body_weight, driver_weight, gate_weight};

use crate::choices::choice_weight;
use crate::limits::{capped, fault, is_most, plus, weighed};
use crate::parts::parts_weight;
use crate::targets::assigned;
use crate::terminals::put_terminals;
use design_form::{Design, Driver, EvalFault, GateUse, Process, Signal};
use design_sizes::{put_assignment, put_statement};
use elab_names::ElabFault;
use proc_loops::Unrolled;
use rdc_outside::Place;
use std::alloc::Global;

/// The bits of signals, added to a weight so far.
fn bits_weight(signals: &[Signal], so_far: u32) -> u32
    ensures { result ≡ capped (so_far + sum_by (λ s. width_of (bounds_of s)) signals.now) }
{
    let mut weight = capped(so_far as u64);
    for signal in signals {
        weight = plus(weight, capped(signal.bounds().width() as u64));
    }
    weight
}

/// A driver, added to a weight so far.
fn driver_weight(
    alloc: Global,
    design: &Design,
    driver: &Driver,
    so_far: u32,
) -> Result<u32, EvalFault>
    ensures { IfOk result (λ n. n ≡ capped (so_far + driver_weight design.now driver.now)) }
{
    let mut parts = Vec::new(alloc);
    put_assignment(alloc, design, &mut parts, &driver.target, &driver.value)?;
    parts_weight(alloc, design, &parts, so_far)
}

/// A gate, added to a weight so far.
fn gate_weight(
    alloc: Global,
    design: &Design,
    gate: &GateUse,
    so_far: u32,
) -> Result<u32, EvalFault>
    ensures { IfOk result (λ n. n ≡ capped (so_far + gate_weight design.now gate.now)) }
{
    let mut parts = Vec::new(alloc);
    put_terminals(
        alloc,
        design,
        &mut parts,
        gate.kind,
        gate.terminals.as_slice(),
    )?;
    parts_weight(alloc, design, &parts, so_far)
}

/// The expressions of a process without loops, added to a weight so far.
fn expressions_weight(
    alloc: Global,
    design: &Design,
    unrolled: &Unrolled,
    so_far: u32,
) -> Result<u32, EvalFault>
    ensures { IfOk result (λ n. n ≡ capped (so_far + parts_weight design.now (sized_statement design.now unrolled.now.body))) }
{
    let mut parts = Vec::new(alloc);
    put_statement(alloc, design, &mut parts, &unrolled.body)?;
    parts_weight(alloc, design, &parts, so_far)
}

/// A process without loops, added to a weight so far. Past the limit its choices are not looked at.
fn body_weight(
    alloc: Global,
    design: &Design,
    unrolled: &Unrolled,
    so_far: u32,
) -> Result<u32, EvalFault>
    ensures { IfOk result (λ n. n ≡ capped (so_far + body_weight design.now unrolled.now)) }
{
    let weight = expressions_weight(alloc, design, unrolled, so_far)?;
    let weight = plus(weight, capped(unrolled.headers));
    if is_most(weight) {
        return Ok(weight);
    }
    let bits = assigned(alloc, design, &unrolled.body)?;
    let choices = choice_weight(alloc, design, &unrolled.body, bits)?;
    Ok(plus(weight, choices))
}

/// A weight as far as the limit, or `Heavy`.
fn answered(weight: Result<u32, EvalFault>, place: Place) -> Result<u32, ElabFault>
    ensures { (n : ℕ) → IfOk weight (λ w. w ≡ capped n) → Answers (λ w. w) result (weighed place n) }
{
    match weight {
        Ok(weight) => weighed(weight, place),
        Err(cause) => Err(fault(cause)),
    }
}

/// The bits of a design, added to a weight so far.
///
/// # Errors
/// `Heavy` at `place` where that reaches 1,048,576.
pub fn weigh_bits(design: &Design, so_far: u32, place: Place) -> Result<u32, ElabFault>
    ensures { Answers (λ n. n) result (weighed place (so_far + bits_weight design.now)) }
{
    let weight = bits_weight(design.parts().signals.as_slice(), so_far);
    answered(Ok(weight), place)
}

/// A driver, added to a weight so far.
///
/// # Errors
/// `Heavy` at the driver where that reaches 1,048,576.
pub fn weigh_driver(
    alloc: Global,
    design: &Design,
    driver: &Driver,
    so_far: u32,
) -> Result<u32, ElabFault>
    ensures { Answers (λ n. n) result (weighed driver.now.place (so_far + driver_weight design.now driver.now)) }
{
    let weight = driver_weight(alloc, design, driver, so_far);
    answered(weight, driver.place)
}

/// A gate, added to a weight so far.
///
/// # Errors
/// `Heavy` at the gate where that reaches 1,048,576.
pub fn weigh_gate(
    alloc: Global,
    design: &Design,
    gate: &GateUse,
    so_far: u32,
) -> Result<u32, ElabFault>
    ensures { Answers (λ n. n) result (weighed gate.now.place (so_far + gate_weight design.now gate.now)) }
{
    let weight = gate_weight(alloc, design, gate, so_far);
    answered(weight, gate.place)
}

/// A process, whose body without loops is given, added to a weight so far.
///
/// # Errors
/// `Heavy` at the process where that reaches 1,048,576.
pub fn weigh_process(
    alloc: Global,
    design: &Design,
    process: &Process,
    unrolled: &Unrolled,
    so_far: u32,
) -> Result<u32, ElabFault>
    ensures { Answers (λ n. n) result (weighed process.now.place (so_far + body_weight design.now unrolled.now)) }
{
    let weight = body_weight(alloc, design, unrolled, so_far);
    answered(weight, process.place)
}
