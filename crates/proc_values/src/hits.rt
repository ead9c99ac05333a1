//! Which start of a select a variable index is.
ghost use Rattle.std.specs.Prelude.{◌≡◌, ◌+◌, ◌-◌, ◌/◌, ◌<◌, ◌≤◌, ◌^◌, length, nat_le, if◌then◌else◌, IfOk};
ghost use Rattle.rdc_tern.specs.Words.{eq_of};
ghost use Rattle.rdc_tern.specs.declared.value.Tern.TheVariants.{Zero};
ghost use Rattle.design_form.specs.Extents.{shape_of};
ghost use Rattle.design_form.specs.Signals.{lowest, width_of};
ghost use Rattle.design_form.specs.Bits.{can_be, fits, low_bit, start_bit, start_word};
ghost use Rattle.design_form.specs.Selects.{difference, hit, hits_from, starts};
ghost use Rattle.proc_values.specs.Starts.{above, under};

use design_form::{Bounds, EvalFault, Extent};
use rdc_tern::Tern;
use std::alloc::Global;
use vlog_tree::Part;

/// A select of bits: how it is written, the range of its signal, and its width.
#[derive(Clone, Copy)]
pub struct Select {
    pub part: Part,
    pub range: Bounds,
    pub width: usize,
}

/// Whether a number has no more than so many bits.
#[tactic(auto, using(design_form::proofs::WordLemmas::fit_steps))]
fn fits(number: usize, width: usize) -> bool
    ensures { result ≡ fits number width }
{
    if width < 64 {
        number < 1usize << width
    } else {
        true
    }
}

/// The lowest bit of a start: a number, or how far it stands below -1.
#[tactic(auto, unfolding(crate::specs::Starts::above, crate::specs::Starts::under, design_form::specs::Selects::difference, design_form::specs::Bits::start_bit))]
fn low_bit(below: bool, number: usize) -> Tern
    ensures { result ≡ start_bit (difference (above below number) (under below number)) }
{
    match (below, number % 2 == 1) {
        (false, true) | (true, false) => Tern::One,
        (false, false) | (true, true) => Tern::Zero,
    }
}

/// Whether an index is a start, which is a word as wide.
fn equals(index: &[Tern], below: bool, number: usize) -> Tern
    ensures { result ≡ eq_of index.now (start_word (length index.now) (difference (above below number) (under below number))) }
{
    let mut equal = Tern::One;
    let mut left = number;
    for i in 0..index.len() {
        equal = equal.and(index[i].xor(low_bit(below, left)).not());
        left /= 2;
    }
    equal
}

/// Whether an index of that extent can be a start.
#[tactic(auto, unfolding(crate::specs::Starts::above, crate::specs::Starts::under, design_form::specs::Selects::difference, design_form::specs::Bits::can_be))]
fn can_be(extent: Extent, below: bool, number: usize) -> bool
    ensures { result ≡ can_be (shape_of extent) (difference (above below number) (under below number)) }
{
    let rest = extent.width.saturating_sub(1);
    match (below, extent.signed) {
        (true, signed) => signed && fits(number, rest),
        (false, true) => fits(number, rest),
        (false, false) => fits(number, extent.width),
    }
}

/// Whether an index is the start.
fn hit_at(extent: Extent, index: &[Tern], below: bool, number: usize) -> Tern
    requires { length index.now ≡ extent.width }
    ensures { result ≡ (if can_be (shape_of extent) (difference (above below number) (under below number)) then eq_of index.now (start_word extent.width (difference (above below number) (under below number))) else Zero) }
{
    if can_be(extent, below, number) {
        equals(index, below, number)
    } else {
        Tern::Zero
    }
}

/// Whether an index is the start of a number, counted from below.
#[tactic(auto, unfolding(crate::specs::Starts::above, crate::specs::Starts::under, design_form::specs::Selects::difference, design_form::specs::Selects::hit, design_form::specs::Selects::start_of))]
fn hit(select: Select, extent: Extent, index: &[Tern], number: usize) -> Tern
    requires number { number < 2 ^ 63 + 2 ^ 33 }
    requires width { length index.now ≡ extent.width }
    ensures { result ≡ hit select.part select.range select.width (shape_of extent) index.now number }
{
    let at = select.range.lowest() as usize + number;
    let back = select.width.saturating_sub(1);
    match select.part {
        Part::Up => {
            if back <= at {
                hit_at(extent, index, false, at - back)
            } else {
                hit_at(extent, index, true, back - at - 1)
            }
        }
        Part::Fixed | Part::Down => hit_at(extent, index, false, at),
    }
}

/// Which of the starts an index is.
pub(crate) fn hits(
    alloc: Global,
    select: Select,
    extent: Extent,
    index: &[Tern],
) -> Result<Vec<Tern>, EvalFault>
    requires select { select.width < 2 ^ 63 }
    requires width { length index.now ≡ extent.width }
    ensures { IfOk result (λ w. w.items ≡ hits_from select.part select.range select.width (shape_of extent) index.now 0 (starts select.range select.width)) }
{
    let mut hits = Vec::new(alloc);
    let count = select.range.width() + select.width - 1;
    for number in 0..count {
        hits.push(hit(select, extent, index, number))?;
    }
    Ok(hits)
}
