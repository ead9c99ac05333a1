//! Tests of a reset.
ghost use Rattle.std.specs.Prelude.{◌≡◌, IfOk};
ghost use Rattle.std.specs.Option.{option_map, option_copied};
ghost use Rattle.flop_shapes.specs.Tests.{at_level, compared, inverted, is_bit, is_decimal, is_plain, level_in, level_of, number_of, test_of};
ghost use Rattle.flop_shapes.specs.Answers.{a_bit};

use crate::bits::{at_index, bit};
use crate::reference::Reference;
use std::alloc::{AllocError, Global};
use vlog_tree::{Base, Binary, Expr, Number, Unary};

/// The number that an expression is.
#[cycle(numbers)]
#[tactic(auto, using(crate::proofs::NumberForms::forms))]
fn number(e: &Expr) -> Option<&Number>
    ensures { option_copied result ≡ number_of e.now }
{
    match e {
        Expr::Number(_, number) => Some(number.get()),
        Expr::Brackets(_, inner) => number(inner.get()),
        Expr::Name(_, _) => None,
        Expr::Index(_, _, _) => None,
        Expr::Select(_, _, _, _, _) => None,
        Expr::Concat(_, _) => None,
        Expr::Repeat(_, _, _) => None,
        Expr::Unary(_, _, _) => None,
        Expr::Binary(_, _, _, _) => None,
        Expr::Conditional(_, _, _, _) => None,
    }
}

#[tactic(auto, unfolding(crate::specs::Tests::is_decimal))]
fn is_decimal(base: Base) -> bool
    ensures { result ≡ is_decimal base }
{
    match base {
        Base::Decimal => true,
        Base::Binary | Base::Octal | Base::Hexadecimal => false,
    }
}

/// As 1 is written; a parameter's number is binary.
fn is_plain(n: &Number) -> bool
    ensures { result ≡ is_plain n.now }
{
    !n.sized && n.signed && is_decimal(n.base) && n.width == 32
}

/// As 1'b1 is written, in any base.
fn is_bit(n: &Number) -> bool
    ensures { result ≡ is_bit n.now }
{
    n.sized && !n.signed && n.width == 1
}

/// The level that a number stands for.
#[tactic(auto, unfolding(crate::specs::Tests::level_of))]
fn level(n: &Number) -> Option<bool>
    ensures { result ≡ level_of n.now }
{
    if !((is_plain(n) || is_bit(n)) && n.z == 0) {
        return None;
    }
    match n.bits {
        0 => Some(false),
        1 => Some(true),
        _ => None,
    }
}

/// The level of a number that may be absent.
#[tactic(auto, unfolding(crate::specs::Tests::level_in))]
fn level_in(n: Option<&Number>) -> Option<bool>
    ensures { result ≡ level_in (option_copied n.entry) }
{
    match n {
        Some(n) => level(n),
        None => None,
    }
}

/// A bit and a level, where both are there.
#[tactic(auto, unfolding(crate::specs::Tests::at_level))]
fn at_level(bit: Option<Reference<'_>>, level: Option<bool>) -> Option<(Reference<'_>, bool)>
    ensures { option_map (λ t. (a_bit t.0, t.1)) result ≡ at_level (option_map a_bit bit.entry) level }
{
    match (bit, level) {
        (Some(bit), Some(level)) => Some((bit, level)),
        (Some(_), None) => None,
        (None, _) => None,
    }
}

/// `!` and `~` before a bit.
#[tactic(auto, unfolding(crate::specs::Tests::inverted))]
fn inverted(op: Unary, bit: Option<Reference<'_>>) -> Option<(Reference<'_>, bool)>
    ensures { option_map (λ t. (a_bit t.0, t.1)) result ≡ inverted op (option_map a_bit bit.entry) }
{
    match op {
        Unary::Not => at_level(bit, Some(false)),
        Unary::Invert => at_level(bit, Some(false)),
        _ => None,
    }
}

/// `==` between a bit and a number.
#[tactic(auto, unfolding(crate::specs::Tests::compared))]
fn compared<'a>(
    op: Binary,
    bit: Option<Reference<'a>>,
    number: Option<&Number>,
) -> Option<(Reference<'a>, bool)>
    ensures { option_map (λ t. (a_bit t.0, t.1)) result ≡ compared op (option_map a_bit bit.entry) (option_copied number.entry) }
{
    match op {
        Binary::Equal => at_level(bit, level_in(number)),
        _ => None,
    }
}

/// The bit that a test asks for, and the level at which it holds.
#[cycle(tests)]
#[tactic(auto, using(crate::proofs::TestForms::forms))]
pub(crate) fn test<'a>(
    alloc: Global,
    e: &'a Expr,
) -> Result<Option<(Reference<'a>, bool)>, AllocError>
    ensures { IfOk result (λ r. option_map (λ t. (a_bit t.0, t.1)) r ≡ test_of e.now) }
{
    match e {
        Expr::Name(_, name) => Ok(Some((
            Reference {
                name: name.as_slice(),
                index: None,
            },
            true,
        ))),
        Expr::Index(_, name, index) => {
            let bit = at_index(alloc, name.as_slice(), index.get())?;
            Ok(at_level(bit, Some(true)))
        }
        Expr::Brackets(_, inner) => test(alloc, inner.get()),
        Expr::Unary(_, op, inner) => Ok(inverted(*op, bit(alloc, inner.get())?)),
        Expr::Binary(_, op, left, right) => {
            let bit = bit(alloc, left.get())?;
            Ok(compared(*op, bit, number(right.get())))
        }
        Expr::Number(_, _) => Ok(None),
        Expr::Select(_, _, _, _, _) => Ok(None),
        Expr::Concat(_, _) => Ok(None),
        Expr::Repeat(_, _, _) => Ok(None),
        Expr::Conditional(_, _, _, _) => Ok(None),
    }
}
