//! What names stand for in a state of a design.
ghost use Rattle.std.specs.Prelude.{◌≡◌, [], false, List, map, IfOk};
ghost use Rattle.design_form.specs.Extents.{shape_of, view_of};
ghost use Rattle.design_form.specs.Values.{named};
ghost use Rattle.design_form.specs.State.{seen_in, value_at};

use crate::design::Design;
use crate::extent::{Extent, unsigned};
use crate::fault::EvalFault;
use crate::signal::Bounds;
use rdc_tern::Tern;
use std::alloc::Global;

/// What a name stands for: its range, its sign and its bits, least significant first.
#[derive(Drop)]
pub(crate) struct View {
    pub(crate) range: Bounds,
    pub(crate) signed: bool,
    pub(crate) word: Vec<Tern>,
}

/// The value of a bit; of one that the state doesn't reach nothing is known.
fn value_at(state: &[Tern], number: u32) -> Tern
    ensures { result ≡ value_at state.now number }
{
    match state.get(number as usize) {
        Some(value) => *value,
        None => Tern::Unsettled,
    }
}

/// The values of bits.
fn values(alloc: Global, state: &[Tern], numbers: &[u32]) -> Result<Vec<Tern>, EvalFault>
    ensures { IfOk result (λ w. w.items ≡ map (value_at state.now) numbers.now) }
{
    let mut word = Vec::with_capacity(alloc, numbers.len())?;
    for number in numbers {
        word.push(value_at(state, *number))?;
    }
    Ok(word)
}

/// A name that is not declared.
fn unknown(alloc: Global) -> View
    ensures range { result.range ≡ record { msb = 0; lsb = 0 } }
    ensures signed { result.signed ≡ false }
    ensures word { result.word.items ≡ [] }
{
    View {
        range: Bounds { msb: 0, lsb: 0 },
        signed: false,
        word: Vec::new(alloc),
    }
}

/// What a name stands for.
#[tactic(auto, unfolding(crate::specs::State::seen_in, crate::specs::State::seen_as))]
pub(crate) fn seen(
    alloc: Global,
    design: &Design,
    state: &[Tern],
    name: &[u8],
) -> Result<View, EvalFault>
    ensures { IfOk result (λ v. view_of v ≡ seen_in design.now state.now name.now) }
{
    let Some(signal) = design.signal(name) else {
        return Ok(unknown(alloc));
    };
    let Some(numbers) = design.bits_of(name) else {
        return Ok(unknown(alloc));
    };
    Ok(View {
        range: signal.bounds(),
        signed: signal.signed,
        word: values(alloc, state, numbers)?,
    })
}

/// The range of a name.
#[tactic(auto, unfolding(crate::specs::State::seen_in, crate::specs::State::seen_as))]
pub(crate) fn range_of(design: &Design, name: &[u8]) -> Bounds
    ensures { (state : List Tern) → (seen_in design.now state name.now).range ≡ result }
{
    match design.signal(name) {
        Some(signal) => signal.bounds(),
        None => Bounds { msb: 0, lsb: 0 },
    }
}

/// The extent of a name by itself. Its values are not looked at.
#[tactic(auto, using(crate::proofs::SeenLemmas::shapes), unfolding(crate::specs::State::seen_in, crate::specs::State::seen_as))]
pub(crate) fn extent_of(design: &Design, name: &[u8]) -> Extent
    ensures { (state : List Tern) → shape_of result ≡ (named (seen_in design.now state name.now)).shape }
{
    match design.signal(name) {
        Some(signal) => Extent {
            width: signal.bounds().width(),
            signed: signal.signed,
        },
        None => unsigned(0),
    }
}
