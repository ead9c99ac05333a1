//! Selects of a value's bits, copies of bits, and bits side by side.
ghost use Rattle.std.specs.Prelude.{◌≡◌, ◌+◌, ◌-◌, ◌*◌, ◌^◌, ◌≤◌, min, IfOk};
ghost use Rattle.vlog_const.specs.Selects.{beside, capped, copies, counted, index_worth, lowered, part_start, part_width, repeat_worth, select_worth, span, whole, window};
ghost use Rattle.vlog_const.specs.Words.{low};
ghost use Rattle.vlog_const.specs.Terms.{Answers, worth_of};

use crate::answer::{ConstFault, ConstValue};
use crate::operand::{Operand, fixed};
use crate::shape::Shape;
use crate::whole::Whole;
use crate::words::{is_negative, low, magnitude, shifted_left, shifted_right};
use rdc_outside::Place;
use vlog_tree::Part;

/// A value with its sign.
pub(crate) fn whole(value: ConstValue) -> Whole
    requires { value.width ≤ 128 }
    ensures { result ≡ whole value }
{
    Whole {
        negative: is_negative(value.signed, value.width, value.bits),
        magnitude: magnitude(value.signed, value.width, value.bits),
    }
}

/// How many a count is; a negative one is none.
pub(crate) fn counted(count: Whole) -> u128
    ensures { result ≡ counted count }
{
    if count.negative { 0 } else { count.magnitude }
}

/// How many numbers stand from `least` up to `most`, as far as a `u128` goes.
fn distance(most: u128, least: u128) -> u128
    ensures { result ≡ min ((most + 1) - least) (2 ^ 128 - 1) }
{
    if least <= most {
        (most - least).saturating_add(1)
    } else {
        0
    }
}

/// How many positions stand from `msb` down to `lsb`, as far as a `u128` goes.
#[tactic(auto, unfolding(crate::specs::Selects::span))]
pub(crate) fn span(msb: Whole, lsb: Whole) -> u128
    ensures { result ≡ min (span msb lsb) (2 ^ 128 - 1) }
{
    if msb.negative {
        if lsb.negative {
            distance(lsb.magnitude, msb.magnitude)
        } else {
            0
        }
    } else if lsb.negative {
        msb.magnitude
            .saturating_add(1)
            .saturating_add(lsb.magnitude)
    } else {
        distance(msb.magnitude, lsb.magnitude)
    }
}

/// A number less k, as far as a `u128` goes.
#[tactic(auto, unfolding(crate::specs::Selects::lowered))]
fn lowered(number: Whole, k: u128) -> Whole
    ensures { result ≡ capped (lowered number k) }
{
    let Whole {
        negative,
        magnitude,
    } = number;
    if negative {
        Whole {
            negative: true,
            magnitude: magnitude.saturating_add(k),
        }
    } else if k <= magnitude {
        Whole {
            negative: false,
            magnitude: magnitude - k,
        }
    } else {
        Whole {
            negative: true,
            magnitude: k - magnitude,
        }
    }
}

/// The positions from `start` up; those outside the bits are 0.
#[tactic(auto, unfolding(crate::specs::Selects::window))]
fn window(bits: u128, start: Whole, width: u32) -> u128
    requires { width ≤ 128 }
    ensures { result ≡ window bits start width }
{
    if start.negative {
        shifted_left(width, bits, start.magnitude)
    } else {
        low(width, shifted_right(bits, start.magnitude))
    }
}

/// How wide a part select is, as far as a `u128` goes.
#[tactic(auto, unfolding(crate::specs::Selects::part_width))]
fn part_width(part: Part, first: Whole, second: Whole) -> u128
    ensures { result ≡ min (part_width part first second) (2 ^ 128 - 1) }
{
    match part {
        Part::Fixed => span(first, second),
        Part::Up | Part::Down => counted(second),
    }
}

/// The lowest position of a part select, as far as a `u128` goes.
#[tactic(auto, unfolding(crate::specs::Selects::part_start))]
fn part_start(part: Part, first: Whole, second: Whole) -> Whole
    ensures { result ≡ capped (part_start part first second) }
{
    match part {
        Part::Fixed => second,
        Part::Up => first,
        Part::Down => lowered(first, counted(second).saturating_sub(1)),
    }
}

/// `value[index]`
#[tactic(auto, unfolding(crate::specs::Selects::index_worth))]
pub(crate) fn index(place: Place, value: ConstValue, index: ConstValue) -> Operand
    requires { index.width ≤ 128 }
    ensures value { worth_of result ≡ index_worth place value index }
    ensures bound { result.shape.width ≤ 128 }
{
    let bit = Shape {
        width: 1,
        signed: false,
    };
    fixed(place, bit, window(value.bits, whole(index), 1))
}

/// `value[first : second]` and its like
#[tactic(auto, using(crate::proofs::SelectLemmas::select_steps), unfolding(crate::specs::Selects::select_worth, crate::specs::Worths::narrow, crate::specs::Worths::and_then))]
pub(crate) fn select(
    place: Place,
    value: ConstValue,
    part: Part,
    first: ConstValue,
    second: ConstValue,
) -> Result<Operand, ConstFault>
    requires first { first.width ≤ 128 }
    requires second { second.width ≤ 128 }
    ensures value { Answers worth_of result (select_worth place value part first second) }
    ensures bound { IfOk result (λ a. a.shape.width ≤ 128) }
{
    let from = whole(first);
    let to = whole(second);
    let count = part_width(part, from, to);
    if 128 < count {
        return Err(ConstFault::TooWide(place));
    }
    let width = count as u32;
    let bits = window(value.bits, part_start(part, from, to), width);
    Ok(fixed(
        place,
        Shape {
            width,
            signed: false,
        },
        bits,
    ))
}

/// The members so far with a further one on their right.
#[tactic(auto, using(crate::proofs::WordLemmas::word_steps), unfolding(crate::specs::Selects::beside, crate::specs::Worths::narrow, crate::specs::Worths::and_then))]
pub(crate) fn beside(
    place: Place,
    so_far: ConstValue,
    member: ConstValue,
) -> Result<ConstValue, ConstFault>
    requires so_far { so_far.width ≤ 128 }
    requires member { member.width ≤ 128 }
    ensures value { result ≡ beside place so_far member }
    ensures bound { IfOk result (λ v. v.width ≤ 128) }
{
    let width = so_far.width + member.width;
    if 128 < width {
        return Err(ConstFault::TooWide(place));
    }
    Ok(ConstValue {
        bits: moved(width, so_far.bits, member.width, member.bits),
        width,
        signed: false,
    })
}

/// `bits`, `count` places further, with `more` on their right.
#[tactic(auto, using(crate::proofs::SelectLemmas::moved_steps))]
fn moved(width: u32, bits: u128, count: u32, more: u128) -> u128
    requires { width ≤ 128 }
    ensures { result ≡ low width (bits * 2 ^ count + more) }
{
    low(
        width,
        shifted_left(128, bits, count as u128).wrapping_add(more),
    )
}

/// Copies of a value, side by side.
#[tactic(auto, using(crate::proofs::SelectLemmas::moved_steps), unfolding(crate::specs::Selects::repeat_worth, crate::specs::Worths::settled, crate::specs::Worths::narrow, crate::specs::Worths::and_then))]
pub(crate) fn repeat(
    place: Place,
    count: ConstValue,
    value: ConstValue,
) -> Result<Operand, ConstFault>
    requires count { count.width ≤ 128 }
    requires value { value.width ≤ 128 }
    ensures value { Answers worth_of result (repeat_worth place count value) }
    ensures bound { IfOk result (λ a. a.shape.width ≤ 128) }
{
    let count = counted(whole(count));
    let width = count.saturating_mul(value.width as u128);
    if 128 < width {
        return Err(ConstFault::TooWide(place));
    }
    let width = width as u32;
    let bits = copies(count, value.width, value.bits, width);
    Ok(fixed(
        place,
        Shape {
            width,
            signed: false,
        },
        bits,
    ))
}

/// The lowest bits of the copies.
#[tactic(auto, using(crate::proofs::SelectLemmas::moved_steps))]
fn copies(count: u128, width: u32, bits: u128, all: u32) -> u128
    requires width { width ≤ 128 }
    requires all { all ≡ count * width }
    requires bound { all ≤ 128 }
    ensures { result ≡ low all (copies count width bits) }
{
    if all == 0 {
        return 0;
    }
    let mut so_far = 0;
    for done in 0..count {
        so_far = moved(all, so_far, width, bits);
    }
    so_far
}
