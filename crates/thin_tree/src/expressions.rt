//! Reads expressions, and pushes their steps.

ghost use Rattle.std.specs.Prelude.{◌≡◌, ◌++◌, map, IfOk, Some, None};
ghost use Rattle.std.specs.Option.{option_map};
ghost use Rattle.thin_tree.specs.Copies.{name_of};
ghost use Rattle.thin_tree.specs.Form.{said, negated, test_of, is_binary, is_bit, bit_of};
ghost use Rattle.thin_tree.specs.Postfix.{step_of, postfix, expression_of, Pushes};

use crate::steps::{Expression, Step};
use std::alloc::{AllocError, Global};
use vlog_tree::{Base, Binary, Expr, Number, Unary};

/// Pushes the steps of an expression. Whether it is of the form; where it isn't, some steps may have been pushed.
#[tactic(auto, unfolding(crate::specs::Form::said, crate::specs::Form::said_by_parts, crate::specs::Form::inverted, crate::specs::Form::joined, crate::specs::Form::and_then))]
fn push<'a>(e: &'a Expr, steps: &mut Vec<Step<'a>>) -> Result<bool, AllocError>
    ensures { IfOk result (λ there. Pushes there (map step_of steps.old.items) (map step_of steps.new.items) (said e.now)) }
{
    match e {
        Expr::Name(_, name) => {
            steps.push(Step::Name(name.as_slice()))?;
            Ok(true)
        }
        Expr::Brackets(_, inner) => {
            if !push(inner.get(), steps)? {
                return Ok(false);
            }
            steps.push(Step::Brackets)?;
            Ok(true)
        }
        Expr::Unary(_, Unary::Invert, inner) => {
            if !push(inner.get(), steps)? {
                return Ok(false);
            }
            steps.push(Step::Not)?;
            Ok(true)
        }
        Expr::Binary(_, Binary::And, left, right) => {
            if !push(left.get(), steps)? || !push(right.get(), steps)? {
                return Ok(false);
            }
            steps.push(Step::And)?;
            Ok(true)
        }
        Expr::Binary(_, Binary::Or, left, right) => {
            if !push(left.get(), steps)? || !push(right.get(), steps)? {
                return Ok(false);
            }
            steps.push(Step::Or)?;
            Ok(true)
        }
        _ => Ok(false),
    }
}

/// An expression, where it is of the form.
pub(crate) fn value<'a>(alloc: Global, e: &'a Expr) -> Result<Option<Expression<'a>>, AllocError>
    ensures { IfOk result (λ r. option_map expression_of r ≡ said e.now) }
{
    let mut steps = Vec::new(alloc);
    if !push(e, &mut steps)? {
        return Ok(None);
    }
    Ok(Some(Expression::of(steps)))
}

/// A name.
#[tactic(auto, unfolding(crate::specs::Copies::name_of, crate::specs::Copies::name_in))]
pub(crate) fn name(e: &Expr) -> Option<&[u8]>
    ensures { option_map (λ n. n.now) result ≡ name_of e.now }
{
    match e {
        Expr::Name(_, name) => Some(name.as_slice()),
        _ => None,
    }
}

/// A name, and whether `!` stands before it.
#[tactic(auto, unfolding(crate::specs::Form::test_of, crate::specs::Form::test_in, crate::specs::Form::negated))]
pub(crate) fn test(e: &Expr) -> Option<(bool, &[u8])>
    ensures { option_map (λ t. (t.0, t.1.now)) result ≡ test_of e.now }
{
    match e {
        Expr::Name(_, name) => Some((false, name.as_slice())),
        Expr::Unary(_, Unary::Not, inner) => {
            let name = name(inner.get())?;
            Some((true, name))
        }
        _ => None,
    }
}

#[tactic(auto, unfolding(crate::specs::Form::is_binary))]
fn is_binary(base: Base) -> bool
    ensures { result ≡ is_binary base }
{
    match base {
        Base::Binary => true,
        _ => false,
    }
}

/// Of one bit, written as such.
#[tactic(auto, unfolding(crate::specs::Form::is_bit))]
fn is_bit(n: &Number) -> bool
    ensures { result ≡ is_bit n.now }
{
    n.sized && !n.signed && is_binary(n.base) && n.width == 1 && n.z == 0
}

/// Whether the number 1'b0 or 1'b1 is the second.
#[tactic(auto, unfolding(crate::specs::Form::bit_of, crate::specs::Form::bit_in, crate::specs::Form::where_so))]
pub(crate) fn bit(e: &Expr) -> Option<bool>
    ensures { result ≡ bit_of e.now }
{
    match e {
        Expr::Number(_, n) => {
            let n = n.get();
            if is_bit(n) { Some(n.bits != 0) } else { None }
        }
        _ => None,
    }
}
