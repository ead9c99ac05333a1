//! Selects of a signal's bits, by constants and by a variable index.
ghost use Rattle.std.specs.Prelude.{◌≡◌, ◌+◌, ◌-◌, ◌*◌, ◌<◌, ◌≤◌, ◌^◌, min, length, nat_le, IfOk};
ghost use Rattle.vlog_const.specs.Selects.{span};
ghost use Rattle.rdc_tern.specs.Words.{eq_of};
ghost use Rattle.design_form.specs.Extents.{shape_of};
ghost use Rattle.design_form.specs.Signals.{is_down, lowest, width_of};
ghost use Rattle.design_form.specs.Bits.{can_be, start_word};
ghost use Rattle.design_form.specs.Selects.{bit_less, difference, hit, hits_from, part_bit, part_from, part_width, picked_bit, picked_from, reached, start_of, starts};

use crate::extent::{Extent, possible};
use crate::fault::EvalFault;
use crate::signal::Bounds;
use crate::start::Start;
use crate::words::fits;
use rdc_tern::Tern;
use std::alloc::Global;
use vlog_const::Whole;
use vlog_tree::Part;

/// The bit that stands `a - b` places up; out of range it is 0.
#[tactic(auto, unfolding(crate::specs::Selects::bit_less))]
fn bit_less(word: &[Tern], a: u128, b: u128) -> Tern
    ensures { result ≡ bit_less word.now a b }
{
    if b <= a && a - b < word.len() as u128 {
        word[(a - b) as usize]
    } else {
        Tern::Zero
    }
}

/// How many indices stand from `first` to `second` in the direction of the range.
#[tactic(auto, unfolding(crate::specs::Selects::part_width))]
pub(crate) fn part_width(range: Bounds, first: Whole, second: Whole) -> Result<usize, EvalFault>
    ensures value { IfOk result (λ n. n ≡ part_width range first second) }
    ensures bound { IfOk result (λ n. n < 2 ^ 63) }
{
    let count = if range.is_down() {
        first.down_to(second)
    } else {
        second.down_to(first)
    };
    possible(count)
}

/// A bit of the part whose least significant bit has the index `second`.
#[tactic(auto, unfolding(crate::specs::Selects::part_bit, crate::specs::Selects::bit_less))]
fn part_bit(range: Bounds, word: &[Tern], second: Whole, place: usize) -> Tern
    requires { place < 2 ^ 63 }
    ensures { result ≡ part_bit range word.now second place }
{
    let Whole {
        negative,
        magnitude,
    } = second;
    let lsb = range.lsb as u128;
    let place = place as u128;
    if 1 << 64 <= magnitude {
        return Tern::Zero;
    }
    match (range.is_down(), negative) {
        (true, true) => bit_less(word, place, lsb + magnitude),
        (true, false) => bit_less(word, magnitude + place, lsb),
        (false, true) => bit_less(word, lsb + place + magnitude, 0),
        (false, false) => bit_less(word, lsb + place, magnitude),
    }
}

/// The bits of a part, least significant first.
#[tactic(auto, using(crate::proofs::SelectLemmas::select_steps))]
pub(crate) fn part(
    alloc: Global,
    range: Bounds,
    word: &[Tern],
    second: Whole,
    width: usize,
) -> Result<Vec<Tern>, EvalFault>
    requires { width < 2 ^ 63 }
    ensures { IfOk result (λ w. w.items ≡ part_from range word.now second 0 width) }
{
    let mut out = Vec::new(alloc);
    for place in 0..width {
        out.push(part_bit(range, word, second, place))?;
    }
    Ok(out)
}

/// A number less another one.
#[tactic(auto, unfolding(crate::specs::Selects::difference))]
fn difference(a: usize, b: usize) -> Start
    ensures { result ≡ difference a b }
{
    if b <= a {
        Start::From(a - b)
    } else {
        Start::Below(b - a - 1)
    }
}

/// The index at a start, counted from below.
#[tactic(auto, unfolding(crate::specs::Selects::start_of))]
fn start_of(part: Part, range: Bounds, width: usize, number: usize) -> Start
    requires { number < 2 ^ 63 + 2 ^ 33 }
    ensures { result ≡ start_of part range width number }
{
    let index = range.lowest() as usize + number;
    match part {
        Part::Up => difference(index, width.saturating_sub(1)),
        Part::Fixed | Part::Down => Start::From(index),
    }
}

/// Whether an index of that extent can be a start.
#[tactic(auto, unfolding(crate::specs::Bits::can_be))]
fn can_be(extent: Extent, start: Start) -> bool
    ensures { result ≡ can_be (shape_of extent) start }
{
    let Extent { width, signed } = extent;
    match start {
        Start::From(n) => fits(
            n,
            if signed {
                width.saturating_sub(1)
            } else {
                width
            },
        ),
        Start::Below(n) => signed && fits(n, width.saturating_sub(1)),
    }
}

/// Whether an index is a start, which is a word as wide.
fn equals(index: &[Tern], start: Start) -> Tern
    ensures { result ≡ eq_of index.now (start_word (length index.now) start) }
{
    let mut equal = Tern::One;
    let mut left = start;
    for i in 0..index.len() {
        equal = equal.and(index[i].xor(left.low_bit()).not());
        left = left.halved();
    }
    equal
}

/// A select of a variable index: how it is written, the range, and the width.
#[derive(Clone, Copy)]
pub(crate) struct Select {
    pub(crate) part: Part,
    pub(crate) range: Bounds,
    pub(crate) width: usize,
}

/// Whether an index is a start.
#[tactic(auto, unfolding(crate::specs::Selects::hit))]
fn hit(select: Select, extent: Extent, index: &[Tern], number: usize) -> Tern
    requires number { number < 2 ^ 63 + 2 ^ 33 }
    requires width { length index.now ≡ extent.width }
    ensures { result ≡ hit select.part select.range select.width (shape_of extent) index.now number }
{
    let start = start_of(select.part, select.range, select.width, number);
    if can_be(extent, start) {
        equals(index, start)
    } else {
        Tern::Zero
    }
}

/// Which of the starts an index is.
#[tactic(auto, using(crate::proofs::SelectLemmas::select_steps))]
fn hits(
    alloc: Global,
    select: Select,
    extent: Extent,
    index: &[Tern],
) -> Result<Vec<Tern>, EvalFault>
    requires select { select.width < 2 ^ 63 }
    requires width { length index.now ≡ extent.width }
    ensures { IfOk result (λ w. w.items ≡ hits_from select.part select.range select.width (shape_of extent) index.now 0 (starts select.range select.width)) }
{
    let mut hits = Vec::new(alloc);
    let count = select.range.width() + select.width - 1;
    for number in 0..count {
        hits.push(hit(select, extent, index, number))?;
    }
    Ok(hits)
}

/// A bit of the select from a start.
#[tactic(auto, unfolding(crate::specs::Selects::reached))]
fn reached(select: Select, word: &[Tern], number: usize, place: usize) -> Tern
    requires number { number < 2 ^ 63 + 2 ^ 33 }
    requires place { place < 2 ^ 63 }
    ensures { result ≡ reached select.range word.now select.width number place }
{
    if select.range.is_down() {
        bit_less(
            word,
            number as u128 + place as u128,
            select.width.saturating_sub(1) as u128,
        )
    } else {
        bit_less(
            word,
            select.range.width() as u128 + place as u128,
            number as u128 + 1,
        )
    }
}

/// A bit of a select: over the starts, the OR of whether the index is the start AND the bit from there.
fn picked_bit(select: Select, word: &[Tern], hits: &[Tern], place: usize) -> Tern
    requires hits { length hits.now ≤ 2 ^ 63 + 2 ^ 33 }
    requires place { place < 2 ^ 63 }
    ensures { result ≡ picked_bit hits.now select.range word.now select.width 0 place }
{
    let mut found = Tern::Zero;
    for number in 0..hits.len() {
        found = found.or(hits[number].and(reached(select, word, number, place)));
    }
    found
}

/// A select by an index.
#[tactic(auto, using(crate::proofs::SelectLemmas::select_steps))]
pub(crate) fn picked(
    alloc: Global,
    select: Select,
    word: &[Tern],
    extent: Extent,
    index: &[Tern],
) -> Result<Vec<Tern>, EvalFault>
    requires select { select.width < 2 ^ 63 }
    requires width { length index.now ≡ extent.width }
    ensures { IfOk result (λ w. w.items ≡ picked_from (hits_from select.part select.range select.width (shape_of extent) index.now 0 (starts select.range select.width)) select.range word.now select.width 0 select.width) }
{
    let hits = hits(alloc, select, extent, index)?;
    let mut out = Vec::new(alloc);
    for place in 0..select.width {
        out.push(picked_bit(select, word, &hits, place))?;
    }
    Ok(out)
}
