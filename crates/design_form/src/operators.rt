//! What each operator gives of words that stand in one context.
ghost use Rattle.std.specs.Prelude.{◌≡◌, length, IfOk};
ghost use Rattle.rdc_tern.specs.Shifts.{sar_of};
ghost use Rattle.vlog_const.specs.Widths.{family_of};
ghost use Rattle.design_form.specs.Extents.{shape_of, AreAlike};
ghost use Rattle.design_form.specs.Gates.{arithmetic, before, before_in, between, between_in, compared, less, logical, reduced, shifted, sized};

use crate::extent::Extent;
use crate::fault::EvalFault;
use crate::words::{bitwise, inverted, one_bit};
use rdc_tern::{Tern, add, all, any, eq, lt, lt_signed, mul, neg, parity, sar, shl, shr, sub};
use std::alloc::Global;
use vlog_const::{Family, family, operand_family};
use vlog_tree::{Binary, Unary};

/// `+ - ~`
#[tactic(auto, unfolding(crate::specs::Gates::sized))]
fn sized(alloc: Global, op: Unary, a: Vec<Tern>) -> Result<Vec<Tern>, EvalFault>
    ensures { IfOk result (λ w. w.items ≡ sized op a.items) }
{
    match op {
        Unary::Minus => Ok(neg(alloc, &a)?),
        Unary::Invert => inverted(alloc, &a),
        _ => Ok(a),
    }
}

/// `+ - * & | ^ ~^`
#[tactic(auto, unfolding(crate::specs::Gates::arithmetic))]
fn arithmetic(alloc: Global, op: Binary, a: &[Tern], b: &[Tern]) -> Result<Vec<Tern>, EvalFault>
    requires { length a.now ≡ length b.now }
    ensures { IfOk result (λ w. w.items ≡ arithmetic op a.now b.now) }
{
    match op {
        Binary::Add => Ok(add(alloc, a, b)?),
        Binary::Subtract => Ok(sub(alloc, a, b)?),
        Binary::Multiply => Ok(mul(alloc, a, b)?),
        _ => bitwise(alloc, op, a, b),
    }
}

/// `a < b`
#[tactic(auto, unfolding(crate::specs::Gates::less))]
fn less(signed: bool, a: &[Tern], b: &[Tern]) -> Tern
    requires { length a.now ≡ length b.now }
    ensures { result ≡ less signed a.now b.now }
{
    if signed && !a.is_empty() {
        lt_signed(a, b)
    } else {
        lt(a, b)
    }
}

/// `< <= > >= == != === !==`
#[tactic(auto, unfolding(crate::specs::Gates::compared))]
fn compared(op: Binary, signed: bool, a: &[Tern], b: &[Tern]) -> Tern
    requires { length a.now ≡ length b.now }
    ensures { result ≡ compared op signed a.now b.now }
{
    match op {
        Binary::Less => less(signed, a, b),
        Binary::AtMost => less(signed, b, a).not(),
        Binary::Greater => less(signed, b, a),
        Binary::AtLeast => less(signed, a, b).not(),
        Binary::Equal | Binary::CaseEqual => eq(a, b),
        Binary::NotEqual | Binary::CaseNotEqual => eq(a, b).not(),
        _ => Tern::Zero,
    }
}

/// `! & ~& | ~| ^ ~^` over all bits.
#[tactic(auto, unfolding(crate::specs::Gates::reduced))]
fn reduced(op: Unary, a: &[Tern]) -> Tern
    ensures { result ≡ reduced op a.now }
{
    match op {
        Unary::Not | Unary::ReduceNor => any(a).not(),
        Unary::ReduceOr => any(a),
        Unary::ReduceAnd => all(a),
        Unary::ReduceNand => all(a).not(),
        Unary::ReduceXor => parity(a),
        Unary::ReduceXnor => parity(a).not(),
        _ => Tern::Zero,
    }
}

/// `&& ||`
#[tactic(auto, unfolding(crate::specs::Gates::logical))]
fn logical(op: Binary, a: &[Tern], b: &[Tern]) -> Tern
    ensures { result ≡ logical op a.now b.now }
{
    match op {
        Binary::LogicalAnd => any(a).and(any(b)),
        Binary::LogicalOr => any(a).or(any(b)),
        _ => Tern::Zero,
    }
}

/// A signed word moved down, filled with its top bit.
#[tactic(auto, using(crate::proofs::WordLemmas::shift_steps))]
fn filled(alloc: Global, a: Vec<Tern>, amount: &[Tern]) -> Result<Vec<Tern>, EvalFault>
    ensures { IfOk result (λ w. w.items ≡ sar_of a.items amount.now) }
{
    if a.is_empty() {
        return Ok(a);
    }
    Ok(sar(alloc, &a, amount)?)
}

/// `>>>`
#[tactic(auto, unfolding(crate::specs::Gates::shifted))]
fn right(alloc: Global, signed: bool, a: Vec<Tern>, amount: &[Tern]) -> Result<Vec<Tern>, EvalFault>
    ensures { IfOk result (λ w. w.items ≡ shifted Binary.ArithmeticShiftRight signed a.items amount.now) }
{
    if signed {
        filled(alloc, a, amount)
    } else {
        Ok(shr(alloc, &a, amount)?)
    }
}

/// `<< >> <<< >>>`
#[tactic(auto, unfolding(crate::specs::Gates::shifted))]
fn shifted(
    alloc: Global,
    op: Binary,
    signed: bool,
    a: Vec<Tern>,
    amount: &[Tern],
) -> Result<Vec<Tern>, EvalFault>
    ensures { IfOk result (λ w. w.items ≡ shifted op signed a.items amount.now) }
{
    match op {
        Binary::ShiftLeft | Binary::ArithmeticShiftLeft => Ok(shl(alloc, &a, amount)?),
        Binary::ShiftRight => Ok(shr(alloc, &a, amount)?),
        Binary::ArithmeticShiftRight => right(alloc, signed, a, amount),
        _ => Ok(a),
    }
}

/// An operator before its operand, which stands in its own context.
#[tactic(auto, unfolding(crate::specs::Gates::before_in))]
pub(crate) fn before(
    alloc: Global,
    op: Unary,
    context: Extent,
    a: Vec<Tern>,
) -> Result<Vec<Tern>, EvalFault>
    ensures { IfOk result (λ w. w.items ≡ before op (shape_of context) a.items) }
{
    match operand_family(op) {
        Family::Contextual => sized(alloc, op, a),
        Family::Compared | Family::Alone | Family::Leading => {
            one_bit(alloc, reduced(op, &a), context)
        }
    }
}

/// An operator between its operands, each of which stands in its own context.
#[tactic(auto, unfolding(crate::specs::Gates::between_in))]
pub(crate) fn between(
    alloc: Global,
    op: Binary,
    signed: bool,
    context: Extent,
    a: Vec<Tern>,
    b: Vec<Tern>,
) -> Result<Vec<Tern>, EvalFault>
    requires { AreAlike (family_of op) a.items b.items }
    ensures { IfOk result (λ w. w.items ≡ between op signed (shape_of context) a.items b.items) }
{
    match family(op) {
        Family::Contextual => arithmetic(alloc, op, &a, &b),
        Family::Compared => one_bit(alloc, compared(op, signed, &a, &b), context),
        Family::Alone => one_bit(alloc, logical(op, &a, &b), context),
        Family::Leading => shifted(alloc, op, context.signed, a, &b),
    }
}
