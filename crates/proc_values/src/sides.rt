//! What a side of a choice leaves at the bits of the process.
ghost use Rattle.std.specs.Prelude.{◌≡◌, length, IfOk, OnOk};
ghost use Rattle.rdc_tern.specs.declared.value.Tern.{Tern};
ghost use Rattle.rdc_tern.specs.Shifts.{select_of};
ghost use Rattle.proc_values.specs.Runs.{Run, chosen, values_of};
ghost use Rattle.proc_values.specs.Marks.{IsSide, Runs, scattered};

use crate::changes::{gathered, mixed, put_back};
use design_form::EvalFault;
use rdc_tern::Tern;
use std::alloc::Global;

/// The values of the bits of the process.
#[derive(Drop)]
pub(crate) struct Side {
    /// As reads see them.
    pub(crate) seen: Vec<Tern>,
    /// As they become.
    pub(crate) becomes: Vec<Tern>,
}

/// The values that the bits have.
pub(crate) fn side_of(
    alloc: Global,
    reads: &[u32],
    bits: &[u32],
    now: &[Tern],
    next: &[Tern],
) -> Result<Side, EvalFault>
    ensures now { IfOk result (λ side. side.seen.items ≡ values_of now.now reads.now) }
    ensures next { IfOk result (λ side. side.becomes.items ≡ values_of next.now bits.now) }
{
    let seen = gathered(alloc, reads, now)?;
    let becomes = gathered(alloc, bits, next)?;
    Ok(Side { seen, becomes })
}

/// The bits get these values.
pub(crate) fn put_side(
    reads: &[u32],
    bits: &[u32],
    side: &Side,
    now: &mut [Tern],
    next: &mut [Tern],
)
    requires now { length side.now.seen.items ≡ length reads.now }
    requires next { length side.now.becomes.items ≡ length bits.now }
    ensures now { now.new ≡ scattered reads.now side.now.seen.items now.old }
    ensures next { next.new ≡ scattered bits.now side.now.becomes.items next.old }
{
    put_back(reads, side.seen.as_slice(), now);
    put_back(bits, side.becomes.as_slice(), next);
}

/// Bit by bit the first side where the selection is 1, the second where it is 0.
pub(crate) fn mixed_sides(
    alloc: Global,
    select: Tern,
    first: &Side,
    second: &Side,
) -> Result<Side, EvalFault>
    requires now { length first.now.seen.items ≡ length second.now.seen.items }
    requires next { length first.now.becomes.items ≡ length second.now.becomes.items }
    ensures now { IfOk result (λ side. side.seen.items ≡ select_of select first.now.seen.items second.now.seen.items) }
    ensures next { IfOk result (λ side. side.becomes.items ≡ select_of select first.now.becomes.items second.now.becomes.items) }
{
    let seen = mixed(alloc, select, first.seen.as_slice(), second.seen.as_slice())?;
    let becomes = mixed(
        alloc,
        select,
        first.becomes.as_slice(),
        second.becomes.as_slice(),
    )?;
    Ok(Side { seen, becomes })
}

/// The bits get what two sides leave of them.
pub(crate) fn settle(
    alloc: Global,
    reads: &[u32],
    bits: &[u32],
    select: Tern,
    first: &Side,
    second: &Side,
    now: &mut [Tern],
    next: &mut [Tern],
) -> Result<(), EvalFault>
    requires first_seen { length first.now.seen.items ≡ length reads.now }
    requires first_becomes { length first.now.becomes.items ≡ length bits.now }
    requires second_seen { length second.now.seen.items ≡ length reads.now }
    requires second_becomes { length second.now.becomes.items ≡ length bits.now }
    ensures { (one other : Run) → IsSide reads.now bits.now (record { now = now.old; next = next.old }) one first.now.seen.items first.now.becomes.items
        → IsSide reads.now bits.now (record { now = now.old; next = next.old }) other second.now.seen.items second.now.becomes.items
        → OnOk result (Runs reads.now bits.now (λ _. chosen reads.now bits.now select one other) now.old next.old now.new next.new) }
{
    let mixed = mixed_sides(alloc, select, first, second)?;
    put_side(reads, bits, &mixed, now, next);
    Ok(())
}

/// The bits get what one side leaves of them, or stay.
pub(crate) fn keep(
    alloc: Global,
    reads: &[u32],
    bits: &[u32],
    select: Tern,
    first: &Side,
    now: &mut [Tern],
    next: &mut [Tern],
) -> Result<(), EvalFault>
    requires first_seen { length first.now.seen.items ≡ length reads.now }
    requires first_becomes { length first.now.becomes.items ≡ length bits.now }
    ensures { (one : Run) → IsSide reads.now bits.now (record { now = now.old; next = next.old }) one first.now.seen.items first.now.becomes.items
        → OnOk result (Runs reads.now bits.now (λ r. chosen reads.now bits.now select one r) now.old next.old now.new next.new) }
{
    let second = side_of(alloc, reads, bits, now, next)?;
    settle(alloc, reads, bits, select, first, &second, now, next)
}
