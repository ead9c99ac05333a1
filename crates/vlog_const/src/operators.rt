//! What operators give of numbers that stand in one context.
ghost use Rattle.std.specs.Prelude.{◌≡◌, ◌/◌, ◌%◌, ◌≤◌};
ghost use Rattle.vlog_const.specs.Widths.{operand_family, family_of};
ghost use Rattle.vlog_const.specs.Words.{differ, quotient, remainder, arithmetic, is_less, compared, shifted_right, shifted, reduced, sized, logical};
ghost use Rattle.vlog_const.specs.Operations.{is_division, is_power};

use crate::shape::{Family, Shape};
use crate::words::{
    inverted, is_negative, low, magnitude, negated, ones, power, shifted_left, shifted_right,
    with_sign,
};
use vlog_tree::{Binary, Unary};

/// How an operator before an operand treats it.
#[tactic(auto, unfolding(crate::specs::Widths::operand_family))]
pub fn operand_family(op: Unary) -> Family
    ensures { result ≡ operand_family op }
{
    match op {
        Unary::Plus | Unary::Minus | Unary::Invert => Family::Contextual,
        Unary::Not
        | Unary::ReduceAnd
        | Unary::ReduceNand
        | Unary::ReduceOr
        | Unary::ReduceNor
        | Unary::ReduceXor
        | Unary::ReduceXnor => Family::Alone,
    }
}

/// How an operator treats its two operands.
#[tactic(auto, unfolding(crate::specs::Widths::family_of))]
pub fn family(op: Binary) -> Family
    ensures { result ≡ family_of op }
{
    match op {
        Binary::Multiply
        | Binary::Divide
        | Binary::Remainder
        | Binary::Add
        | Binary::Subtract
        | Binary::And
        | Binary::Xor
        | Binary::Xnor
        | Binary::Or => Family::Contextual,
        Binary::Less
        | Binary::AtMost
        | Binary::Greater
        | Binary::AtLeast
        | Binary::Equal
        | Binary::NotEqual
        | Binary::CaseEqual
        | Binary::CaseNotEqual => Family::Compared,
        Binary::LogicalAnd | Binary::LogicalOr => Family::Alone,
        Binary::Power
        | Binary::ShiftLeft
        | Binary::ShiftRight
        | Binary::ArithmeticShiftLeft
        | Binary::ArithmeticShiftRight => Family::Leading,
    }
}

/// `/` or `%`
#[tactic(auto, unfolding(crate::specs::Operations::is_division))]
pub fn is_division(op: Binary) -> bool
    ensures { result ≡ is_division op }
{
    match op {
        Binary::Divide | Binary::Remainder => true,
        _ => false,
    }
}

/// `**`
#[tactic(auto, unfolding(crate::specs::Operations::is_power))]
pub fn is_power(op: Binary) -> bool
    ensures { result ≡ is_power op }
{
    match op {
        Binary::Power => true,
        _ => false,
    }
}

/// `a / b`, where nothing divided by 0 is more than 0.
fn divide(a: u128, b: u128) -> u128
    ensures { result ≡ a / b }
{
    if b == 0 { 0 } else { a / b }
}

/// What such a division leaves.
fn leave(a: u128, b: u128) -> u128
    ensures { result ≡ a % b }
{
    if b == 0 { a } else { a % b }
}

/// `a / b`, toward zero.
#[tactic(auto, unfolding(crate::specs::Words::quotient, crate::specs::Words::differ))]
fn quotient(context: Shape, a: u128, b: u128) -> u128
    requires { context.width ≤ 128 }
    ensures { result ≡ quotient context a b }
{
    let Shape { width, signed } = context;
    let count = divide(magnitude(signed, width, a), magnitude(signed, width, b));
    with_sign(
        differ(is_negative(signed, width, a), is_negative(signed, width, b)),
        width,
        count,
    )
}

/// `a % b`, with the sign of `a`.
#[tactic(auto, unfolding(crate::specs::Words::remainder))]
fn remainder(context: Shape, a: u128, b: u128) -> u128
    requires { context.width ≤ 128 }
    ensures { result ≡ remainder context a b }
{
    let Shape { width, signed } = context;
    let left = leave(magnitude(signed, width, a), magnitude(signed, width, b));
    with_sign(is_negative(signed, width, a), width, left)
}

/// Exactly one of two.
#[tactic(auto, unfolding(crate::specs::Words::differ))]
fn differ(a: bool, b: bool) -> bool
    ensures { result ≡ differ a b }
{
    if a { !b } else { b }
}

/// `+ - * / % & | ^ ~^`
#[tactic(auto, using(crate::proofs::WordLemmas::word_steps), unfolding(crate::specs::Words::arithmetic))]
pub(crate) fn arithmetic(op: Binary, context: Shape, a: u128, b: u128) -> u128
    requires { context.width ≤ 128 }
    ensures { result ≡ arithmetic op context a b }
{
    let width = context.width;
    match op {
        Binary::Add => low(width, a.wrapping_add(b)),
        Binary::Subtract => low(width, a.wrapping_add(negated(width, b))),
        Binary::Multiply => low(width, a.wrapping_mul(b)),
        Binary::Divide => quotient(context, a, b),
        Binary::Remainder => remainder(context, a, b),
        Binary::And => a & b,
        Binary::Or => a | b,
        Binary::Xor => a ^ b,
        Binary::Xnor => inverted(width, a ^ b),
        _ => 0,
    }
}

/// `a < b`
#[tactic(auto, unfolding(crate::specs::Words::is_less))]
fn is_less(context: Shape, a: u128, b: u128) -> bool
    requires { context.width ≤ 128 }
    ensures { result ≡ is_less context a b }
{
    let below = is_negative(context.signed, context.width, a);
    if differ(below, is_negative(context.signed, context.width, b)) {
        below
    } else {
        a < b
    }
}

/// `< <= > >= == != === !==`
#[tactic(auto, unfolding(crate::specs::Words::compared))]
pub(crate) fn compared(op: Binary, context: Shape, a: u128, b: u128) -> bool
    requires { context.width ≤ 128 }
    ensures { result ≡ compared op context a b }
{
    match op {
        Binary::Less => is_less(context, a, b),
        Binary::AtMost => !is_less(context, b, a),
        Binary::Greater => is_less(context, b, a),
        Binary::AtLeast => !is_less(context, a, b),
        Binary::Equal | Binary::CaseEqual => a == b,
        Binary::NotEqual | Binary::CaseNotEqual => a != b,
        _ => false,
    }
}

/// `a >> n`, filled with ones behind a negative number.
#[tactic(auto, unfolding(crate::specs::Words::shifted_right))]
fn filled_right(negative: bool, width: u32, a: u128, n: u128) -> u128
    requires { width ≤ 128 }
    ensures { result ≡ shifted_right negative width a n }
{
    if negative {
        inverted(width, shifted_right(inverted(width, a), n))
    } else {
        shifted_right(a, n)
    }
}

/// `<< >> <<< >>> **`
#[tactic(auto, unfolding(crate::specs::Words::shifted))]
pub(crate) fn shifted(op: Binary, context: Shape, a: u128, n: u128) -> u128
    requires { context.width ≤ 128 }
    ensures { result ≡ shifted op context a n }
{
    let Shape { width, signed } = context;
    match op {
        Binary::ShiftLeft | Binary::ArithmeticShiftLeft => shifted_left(width, a, n),
        Binary::ShiftRight => shifted_right(a, n),
        Binary::ArithmeticShiftRight => filled_right(is_negative(signed, width, a), width, a, n),
        Binary::Power => power(width, a, n),
        _ => 0,
    }
}

/// `! & ~& | ~| ^ ~^`
#[tactic(auto, unfolding(crate::specs::Words::reduced))]
pub(crate) fn reduced(op: Unary, width: u32, a: u128) -> bool
    requires { width ≤ 128 }
    ensures { result ≡ reduced op width a }
{
    match op {
        Unary::Not | Unary::ReduceNor => a == 0,
        Unary::ReduceOr => a != 0,
        Unary::ReduceAnd => a == ones(width),
        Unary::ReduceNand => a != ones(width),
        Unary::ReduceXor => a.count_ones() % 2 == 1,
        Unary::ReduceXnor => a.count_ones() % 2 != 1,
        _ => false,
    }
}

/// `+ - ~`
#[tactic(auto, unfolding(crate::specs::Words::sized))]
pub(crate) fn sized(op: Unary, width: u32, a: u128) -> u128
    requires { width ≤ 128 }
    ensures { result ≡ sized op width a }
{
    match op {
        Unary::Plus => a,
        Unary::Minus => negated(width, a),
        Unary::Invert => inverted(width, a),
        _ => 0,
    }
}

/// `&& ||`
#[tactic(auto, unfolding(crate::specs::Words::logical))]
pub(crate) fn logical(op: Binary, a: u128, b: u128) -> bool
    ensures { result ≡ logical op a b }
{
    match op {
        Binary::LogicalAnd => a != 0 && b != 0,
        Binary::LogicalOr => a != 0 || b != 0,
        _ => false,
    }
}
