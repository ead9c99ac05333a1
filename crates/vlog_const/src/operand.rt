//! What an expression is by itself, and what operators make of it.
ghost use Rattle.std.specs.Prelude.{◌≡◌, ◌≤◌, IfOk, Ok};
ghost use Rattle.vlog_const.specs.Widths.{common};
ghost use Rattle.vlog_const.specs.Worths.{Or_fault, Worth, alone, and_then, fixed, in_context, narrow, settled, shape_of, truth};
ghost use Rattle.vlog_const.specs.declared.shape.Family.TheVariants.{Alone, Compared, Contextual, Leading};
ghost use Rattle.vlog_const.specs.Operations.{binary_in, amount, binary_worth, choice_worth, unary_worth};
ghost use Rattle.vlog_const.specs.Terms.{Answers, worth_of};

use crate::answer::{ConstFault, ConstValue};
use crate::operators::{compared, family, is_power, logical, operand_family, reduced};
use crate::shape::{Family, Shape};
use crate::term::{Term, evaluated};
use crate::words::{is_negative, low};
use rdc_outside::Place;
use sqlite_items::Boxed;
use std::alloc::Global;
use vlog_tree::{Binary, Unary};

/// An expression by itself: the place of its first token, its shape, and what is left to be computed.
#[derive(Debug, Drop)]
pub(crate) struct Operand {
    pub(crate) place: Place,
    pub(crate) shape: Shape,
    pub(crate) term: Term,
}

/// The larger width; signed where both are.
pub(crate) fn common(a: Shape, b: Shape) -> Shape
    ensures { result ≡ common a b }
{
    Shape {
        width: a.width.max(b.width),
        signed: a.signed && b.signed,
    }
}

/// A width, where it is at most 128.
#[tactic(auto, unfolding(crate::specs::Worths::narrow))]
pub(crate) fn narrow(place: Place, width: u128) -> Result<u32, ConstFault>
    ensures value { result ≡ narrow place width }
    ensures bound { IfOk result (λ w. w ≤ 128) }
{
    if 128 < width {
        return Err(ConstFault::TooWide(place));
    }
    Ok(width as u32)
}

/// Bits that a context only extends.
#[tactic(auto, unfolding(crate::specs::Terms::term_value, crate::specs::Terms::term_by_parts))]
pub(crate) fn fixed(place: Place, shape: Shape, bits: u128) -> Operand
    ensures value { worth_of result ≡ fixed place shape bits }
    ensures shape { result.shape ≡ shape }
{
    Operand {
        place,
        shape,
        term: Term::Known(shape.width, bits),
    }
}

/// Bits of some width, where that is at most 128.
#[tactic(auto, unfolding(crate::specs::Worths::settled, crate::specs::Worths::narrow, crate::specs::Worths::and_then))]
pub(crate) fn settled(place: Place, shape: Shape, bits: u128) -> Result<Operand, ConstFault>
    ensures value { Answers worth_of result (settled place shape bits) }
    ensures bound { IfOk result (λ a. a.shape.width ≤ 128) }
{
    if 128 < shape.width {
        return Err(ConstFault::TooWide(place));
    }
    Ok(fixed(place, shape, low(shape.width, bits)))
}

/// One bit, without a sign.
pub(crate) fn truth(place: Place, holds: bool) -> Operand
    ensures value { worth_of result ≡ truth place holds }
    ensures bound { result.shape.width ≤ 128 }
{
    let bit = Shape {
        width: 1,
        signed: false,
    };
    fixed(place, bit, if holds { 1 } else { 0 })
}

impl Operand {
    /// The value in a context.
    #[tactic(auto, unfolding(crate::specs::Worths::in_context, crate::specs::Worths::and_then))]
    pub(crate) fn in_context(&self, context: Shape) -> Result<ConstValue, ConstFault>
        requires { context.width ≤ 128 }
        ensures value { result ≡ in_context (worth_of self.now) context }
        ensures bound { IfOk result (λ v. v.width ≤ 128) }
    {
        let bits = evaluated(&self.term, context)?;
        Ok(ConstValue {
            bits: low(context.width, bits),
            width: context.width,
            signed: context.signed,
        })
    }

    /// The value where it is its own context.
    #[tactic(auto, unfolding(crate::specs::Worths::alone))]
    pub(crate) fn alone(&self) -> Result<ConstValue, ConstFault>
        requires { self.now.shape.width ≤ 128 }
        ensures value { result ≡ alone (worth_of self.now) }
        ensures bound { IfOk result (λ v. v.width ≤ 128) }
    {
        self.in_context(self.shape)
    }

    /// The same behind another first token.
    pub(crate) fn at(self, place: Place) -> Operand
        ensures value { worth_of result ≡ record (worth_of self) { place = place } }
        ensures bound { result.shape ≡ self.shape }
    {
        let Operand { shape, term, .. } = self;
        Operand { place, shape, term }
    }
}

/// An operator before its operand.
#[tactic(auto, unfolding(crate::specs::Operations::unary_in, crate::specs::Worths::and_then, crate::specs::Terms::term_value, crate::specs::Terms::term_by_parts))]
pub(crate) fn unary(
    alloc: Global,
    place: Place,
    op: Unary,
    operand: Operand,
) -> Result<Operand, ConstFault>
    requires { operand.shape.width ≤ 128 }
    ensures value { Answers worth_of result (unary_worth place op (worth_of operand)) }
    ensures bound { IfOk result (λ a. a.shape.width ≤ 128) }
{
    match operand_family(op) {
        Family::Contextual => {
            let Operand { shape, term, .. } = operand;
            let term = Term::Unary(op, Boxed::new(alloc, term)?);
            Ok(Operand { place, shape, term })
        }
        Family::Compared | Family::Alone | Family::Leading => {
            let value = operand.alone()?;
            Ok(truth(place, reduced(op, value.width, value.bits)))
        }
    }
}

/// The number behind a shift or a power, if it is no negative exponent.
#[tactic(auto, unfolding(crate::specs::Operations::amount))]
fn amount(op: Binary, place: Place, count: ConstValue) -> Result<u128, ConstFault>
    ensures { result ≡ amount op place count }
{
    if is_power(op) && is_negative(count.signed, count.width, count.bits) {
        return Err(ConstFault::NotConstant(place));
    }
    Ok(count.bits)
}

/// An operator that takes both operands in its context.
#[tactic(auto, unfolding(crate::specs::Operations::binary_in, crate::specs::Terms::term_value, crate::specs::Terms::term_by_parts))]
fn contextual(
    alloc: Global,
    place: Place,
    op: Binary,
    left: Operand,
    right: Operand,
) -> Result<Operand, ConstFault>
    requires left { left.shape.width ≤ 128 }
    requires right { right.shape.width ≤ 128 }
    ensures value { Answers worth_of result (binary_in Contextual place op (worth_of left) (worth_of right)) }
    ensures bound { IfOk result (λ a. a.shape.width ≤ 128) }
{
    let shape = common(left.shape, right.shape);
    let a = Boxed::new(alloc, left.term)?;
    let b = Boxed::new(alloc, right.term)?;
    let term = Term::Binary(op, right.place, a, b);
    Ok(Operand { place, shape, term })
}

/// A comparison of both operands in their common shape.
#[tactic(auto, unfolding(crate::specs::Operations::binary_in, crate::specs::Worths::and_then))]
fn comparison(
    place: Place,
    op: Binary,
    left: &Operand,
    right: &Operand,
) -> Result<Operand, ConstFault>
    requires left { left.now.shape.width ≤ 128 }
    requires right { right.now.shape.width ≤ 128 }
    ensures value { Answers worth_of result (binary_in Compared place op (worth_of left.now) (worth_of right.now)) }
    ensures bound { IfOk result (λ a. a.shape.width ≤ 128) }
{
    let shape = common(left.shape, right.shape);
    let a = left.in_context(shape)?;
    let b = right.in_context(shape)?;
    Ok(truth(place, compared(op, shape, a.bits, b.bits)))
}

/// `&&` and `||`, each operand by itself.
#[tactic(auto, unfolding(crate::specs::Operations::binary_in, crate::specs::Worths::and_then, crate::specs::Worths::alone))]
fn connective(
    place: Place,
    op: Binary,
    left: &Operand,
    right: &Operand,
) -> Result<Operand, ConstFault>
    requires left { left.now.shape.width ≤ 128 }
    requires right { right.now.shape.width ≤ 128 }
    ensures value { Answers worth_of result (binary_in Alone place op (worth_of left.now) (worth_of right.now)) }
    ensures bound { IfOk result (λ a. a.shape.width ≤ 128) }
{
    let a = left.alone()?;
    let b = right.alone()?;
    Ok(truth(place, logical(op, a.bits, b.bits)))
}

/// A shift or a power, by an amount that stands by itself.
#[tactic(auto, unfolding(crate::specs::Operations::binary_in, crate::specs::Worths::and_then, crate::specs::Worths::alone, crate::specs::Terms::term_value, crate::specs::Terms::term_by_parts))]
fn leading(
    alloc: Global,
    place: Place,
    op: Binary,
    left: Operand,
    right: &Operand,
) -> Result<Operand, ConstFault>
    requires left { left.shape.width ≤ 128 }
    requires right { right.now.shape.width ≤ 128 }
    ensures value { Answers worth_of result (binary_in Leading place op (worth_of left) (worth_of right.now)) }
    ensures bound { IfOk result (λ a. a.shape.width ≤ 128) }
{
    let Operand { shape, term, .. } = left;
    let count = amount(op, right.place, right.alone()?)?;
    let term = Term::Shift(op, Boxed::new(alloc, term)?, count);
    Ok(Operand { place, shape, term })
}

/// An operator between its operands.
pub(crate) fn binary(
    alloc: Global,
    place: Place,
    op: Binary,
    left: Operand,
    right: Operand,
) -> Result<Operand, ConstFault>
    requires left { left.shape.width ≤ 128 }
    requires right { right.shape.width ≤ 128 }
    ensures value { Answers worth_of result (binary_worth place op (worth_of left) (worth_of right)) }
    ensures bound { IfOk result (λ a. a.shape.width ≤ 128) }
{
    match family(op) {
        Family::Contextual => contextual(alloc, place, op, left, right),
        Family::Compared => comparison(place, op, &left, &right),
        Family::Alone => connective(place, op, &left, &right),
        Family::Leading => leading(alloc, place, op, left, &right),
    }
}

/// `test ? a : b`
#[tactic(auto, unfolding(crate::specs::Operations::choice_worth, crate::specs::Terms::term_value, crate::specs::Terms::term_by_parts))]
pub(crate) fn choice(
    alloc: Global,
    place: Place,
    first: bool,
    left: Operand,
    right: Operand,
) -> Result<Operand, ConstFault>
    requires left { left.shape.width ≤ 128 }
    requires right { right.shape.width ≤ 128 }
    ensures value { Answers worth_of result (Ok (choice_worth place first (worth_of left) (worth_of right))) }
    ensures bound { IfOk result (λ a. a.shape.width ≤ 128) }
{
    let shape = common(left.shape, right.shape);
    let a = Boxed::new(alloc, left.term)?;
    let b = Boxed::new(alloc, right.term)?;
    let term = Term::Choice(first, a, b);
    Ok(Operand { place, shape, term })
}

/// An operator between what its operands gave, of which the left one's fault is answered first.
#[tactic(auto, unfolding(crate::specs::Worths::and_then))]
pub(crate) fn between(
    alloc: Global,
    place: Place,
    op: Binary,
    left: Result<Operand, ConstFault>,
    right: Result<Operand, ConstFault>,
) -> Result<Operand, ConstFault>
    requires left { IfOk left (λ a. a.shape.width ≤ 128) }
    requires right { IfOk right (λ b. b.shape.width ≤ 128) }
    ensures value { (l r : Or_fault Worth) → Answers worth_of left l → Answers worth_of right r → Answers worth_of result (and_then l (λ a. and_then r (binary_worth place op a))) }
    ensures bound { IfOk result (λ a. a.shape.width ≤ 128) }
{
    let left = left?;
    let right = right?;
    binary(alloc, place, op, left, right)
}

/// `?:` with its test decided, between what its sides gave, of which the first one's fault is answered first.
#[tactic(auto, unfolding(crate::specs::Worths::and_then))]
pub(crate) fn chosen(
    alloc: Global,
    place: Place,
    first: bool,
    left: Result<Operand, ConstFault>,
    right: Result<Operand, ConstFault>,
) -> Result<Operand, ConstFault>
    requires left { IfOk left (λ a. a.shape.width ≤ 128) }
    requires right { IfOk right (λ b. b.shape.width ≤ 128) }
    ensures value { (l r : Or_fault Worth) → Answers worth_of left l → Answers worth_of right r → Answers worth_of result (and_then l (λ a. and_then r (λ b. Ok (choice_worth place first a b)))) }
    ensures bound { IfOk result (λ a. a.shape.width ≤ 128) }
{
    let left = left?;
    let right = right?;
    choice(alloc, place, first, left, right)
}
