//! Numbers in the place of constants, and of their bits.
ghost use Rattle.std.specs.Prelude.{◌≡◌, ◌≤◌, ◌/◌, ◌^◌, IfOk, IsTrue};
ghost use Rattle.std.specs.List.{list_any};
ghost use Rattle.vlog_const.specs.Names.{no_values};
ghost use Rattle.vlog_const.specs.Constants.{value_of};
ghost use Rattle.vlog_const.specs.Words.{low};
ghost use Rattle.elab_names.specs.Answers.{Answers, lifted};
ghost use Rattle.elab_names.specs.Selects.{as_number, bit_in, count_of, fits, holds_name, is_variable, part_in, part_of, piece, position, start_of};

use crate::fault::ElabFault;
use rdc_outside::Place;
use sqlite_items::Boxed;
use std::alloc::{AllocError, Global};
use vlog_const::{ConstValue, Env, Whole, value};
use vlog_tree::{Base, Expr, Number, Part};

/// A constant as a number: in binary, without a size.
pub(crate) fn as_number(alloc: Global, place: Place, value: ConstValue) -> Result<Expr, AllocError>
    ensures { IfOk result (λ e. e ≡ as_number place value) }
{
    let number = Number {
        sized: false,
        signed: value.signed,
        base: Base::Binary,
        width: value.width,
        bits: value.bits,
        z: 0,
    };
    Ok(Expr::Number(place, Boxed::new(alloc, number)?))
}

/// Whether a name stands in an expression.
#[cycle(holds)]
#[tactic(auto, using(crate::proofs::HoldForms::holds))]
pub(crate) fn holds_name(e: &Expr) -> bool
    ensures { result ≡ holds_name e.now }
{
    match e {
        Expr::Number(_, _) => false,
        Expr::Name(_, _) | Expr::Index(_, _, _) | Expr::Select(_, _, _, _, _) => true,
        Expr::Brackets(_, inner) | Expr::Unary(_, _, inner) => holds_name(inner.get()),
        Expr::Concat(_, members) => any_holds(members.as_slice()),
        Expr::Repeat(_, count, members) => {
            holds_name(count.get()) || any_holds(members.as_slice())
        }
        Expr::Binary(_, _, left, right) => holds_name(left.get()) || holds_name(right.get()),
        Expr::Conditional(_, test, left, right) => {
            holds_name(test.get()) || holds_name(left.get()) || holds_name(right.get())
        }
    }
}

/// Whether a name stands in one of some expressions.
#[cycle(holds)]
fn any_holds(members: &[Expr]) -> bool
    ensures { result ≡ list_any holds_name members.now }
{
    for member in members {
        if holds_name(member) {
            return true;
        }
    }
    false
}

/// The value of an expression that is put in.
///
/// # Errors
/// `Const` where it has no value as a constant: a signal in it is `NotConstant` at its place.
#[tactic(auto, using(crate::proofs::AnswerLemmas::lifts))]
pub fn alone(alloc: Global, e: &Expr) -> Result<ConstValue, ElabFault>
    ensures value { Answers (λ v. v) result (lifted (value_of no_values e.now)) }
    ensures bound { IfOk result (λ v. v.width ≤ 128) }
{
    match value(alloc, e, &Env::new(alloc)) {
        Ok(value) => Ok(value),
        Err(cause) => Err(ElabFault::from(cause)),
    }
}

/// The lowest bits of a number.
#[tactic(auto, using(vlog_const::proofs::WordLemmas::word_steps))]
fn low(width: u32, bits: u128) -> u128
    ensures { result ≡ low width bits }
{
    if width < 128 {
        bits % (1u128 << width)
    } else {
        bits
    }
}

/// The bits of a number from a position up.
#[tactic(auto, using(vlog_const::proofs::WordLemmas::word_steps))]
fn above(bits: u128, start: u32) -> u128
    ensures { result ≡ bits / 2 ^ start }
{
    if start < 128 { bits >> start } else { 0 }
}

/// Bits of a constant, from a position up.
fn piece(value: ConstValue, start: u32, count: u32) -> ConstValue
    ensures { result ≡ piece value start count }
{
    ConstValue {
        bits: low(count, above(value.bits, start)),
        width: count,
        signed: false,
    }
}

/// A position of a constant of some width.
#[tactic(auto, unfolding(crate::specs::Selects::position))]
fn position(place: Place, width: u32, index: Whole) -> Result<u32, ElabFault>
    ensures { result ≡ position place width index }
{
    if index.negative || width as u128 <= index.magnitude {
        return Err(ElabFault::BadRange(place));
    }
    Ok(index.magnitude as u32)
}

/// A bit of a constant, at a constant index.
#[tactic(auto, unfolding(crate::specs::Selects::bit_in, crate::specs::Answers::and_then))]
pub(crate) fn bit_in(
    alloc: Global,
    place: Place,
    value: ConstValue,
    index: &Expr,
) -> Result<Expr, ElabFault>
    ensures { Answers (λ e. e) result (bit_in place value index.now) }
{
    if holds_name(index) {
        return Err(ElabFault::NotBuilt(place));
    }
    let index = alone(alloc, index)?;
    let start = position(place, value.width, Whole::of(index))?;
    Ok(as_number(alloc, place, piece(value, start, 1))?)
}

/// Whether a constant has the positions of a part.
#[tactic(auto, unfolding(crate::specs::Selects::fits))]
fn fits(part: Part, width: u32, first: u128, second: u128) -> bool
    ensures { result ≡ fits part width first second }
{
    let width = width as u128;
    match part {
        Part::Fixed => second <= first && first < width,
        Part::Up => 1 <= second && first <= width && second <= width - first,
        Part::Down => 1 <= second && first < width && second <= first + 1,
    }
}

/// The lowest position of a part.
#[tactic(auto, unfolding(crate::specs::Selects::fits, crate::specs::Selects::start_of))]
fn start_of(part: Part, width: u32, first: u128, second: u128) -> u32
    requires { IsTrue (fits part width first second) }
    ensures { result ≡ start_of part first second }
{
    match part {
        Part::Fixed => second as u32,
        Part::Up => first as u32,
        Part::Down => (first + 1 - second) as u32,
    }
}

/// How many positions a part has.
#[tactic(auto, unfolding(crate::specs::Selects::fits, crate::specs::Selects::count_of))]
fn count_of(part: Part, width: u32, first: u128, second: u128) -> u32
    requires { IsTrue (fits part width first second) }
    ensures { result ≡ count_of part first second }
{
    match part {
        Part::Fixed => (first - second + 1) as u32,
        Part::Up | Part::Down => second as u32,
    }
}

/// A part of a constant.
#[tactic(auto, unfolding(crate::specs::Selects::part_of))]
fn part_of(
    place: Place,
    value: ConstValue,
    part: Part,
    first: Whole,
    second: Whole,
) -> Result<ConstValue, ElabFault>
    ensures { result ≡ part_of place value part first second }
{
    let (i, j) = (first.magnitude, second.magnitude);
    if first.negative || second.negative || !fits(part, value.width, i, j) {
        return Err(ElabFault::BadRange(place));
    }
    let start = start_of(part, value.width, i, j);
    let count = count_of(part, value.width, i, j);
    Ok(piece(value, start, count))
}

/// Whether a part begins at a variable index.
#[tactic(auto, unfolding(crate::specs::Selects::is_variable))]
fn is_variable(part: Part, first: &Expr) -> bool
    ensures { result ≡ is_variable part first.now }
{
    match part {
        Part::Fixed => false,
        Part::Up | Part::Down => holds_name(first),
    }
}

/// A part of a constant, between constant bounds.
#[tactic(auto, unfolding(crate::specs::Selects::part_in, crate::specs::Answers::and_then))]
pub(crate) fn part_in(
    alloc: Global,
    place: Place,
    value: ConstValue,
    part: Part,
    first: &Expr,
    second: &Expr,
) -> Result<Expr, ElabFault>
    ensures { Answers (λ e. e) result (part_in place value part first.now second.now) }
{
    if is_variable(part, first) {
        return Err(ElabFault::NotBuilt(place));
    }
    let first = alone(alloc, first)?;
    let second = alone(alloc, second)?;
    let chosen = part_of(place, value, part, Whole::of(first), Whole::of(second))?;
    Ok(as_number(alloc, place, chosen)?)
}
