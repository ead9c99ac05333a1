//! Expressions by themselves, and the values of constant expressions.
ghost use Rattle.std.specs.Prelude.{◌≡◌, ◌≤◌, IfOk, map};
ghost use Rattle.vlog_const.specs.Names.{values_of};
ghost use Rattle.vlog_const.specs.Widths.{unsigned};
ghost use Rattle.vlog_const.specs.Worths.{alone, and_then, fixed, is_true, named, number};
ghost use Rattle.vlog_const.specs.Selects.{joined, nothing, selected};
ghost use Rattle.vlog_const.specs.Constants.{value_in, value_of, value_within, worth};
ghost use Rattle.vlog_const.specs.Terms.{Answers, worth_of};

use crate::answer::{ConstFault, ConstValue};
use crate::env::Env;
use crate::operand::{Operand, between, chosen, fixed, settled, unary};
use crate::selects::{beside, index, repeat, select};
use crate::shape::Shape;
use rdc_outside::Place;
use std::alloc::Global;
use vlog_tree::{Expr, Number};

/// What a number is worth.
#[tactic(auto, unfolding(crate::specs::Worths::number))]
fn number(place: Place, n: &Number) -> Result<Operand, ConstFault>
    ensures value { Answers worth_of result (number place n.now) }
    ensures bound { IfOk result (λ a. a.shape.width ≤ 128) }
{
    let shape = Shape {
        width: n.width,
        signed: n.signed,
    };
    settled(place, shape, n.bits)
}

/// What a name stands for.
#[tactic(auto, unfolding(crate::specs::Worths::named, crate::specs::Worths::looked_up, crate::specs::Worths::and_then))]
fn named(place: Place, name: &[u8], env: &Env) -> Result<Operand, ConstFault>
    ensures value { Answers worth_of result (named (values_of env.now) place name.now) }
    ensures bound { IfOk result (λ a. a.shape.width ≤ 128) }
{
    let Some(value) = env.get(name) else {
        return Err(ConstFault::NotConstant(place));
    };
    let shape = Shape {
        width: value.width,
        signed: value.signed,
    };
    settled(place, shape, value.bits)
}

/// The value of a name, for a select.
#[tactic(auto, unfolding(crate::specs::Selects::selected, crate::specs::Worths::and_then))]
fn selected(place: Place, name: &[u8], env: &Env) -> Result<ConstValue, ConstFault>
    ensures value { Answers (λ v. v) result (selected (values_of env.now) place name.now) }
    ensures bound { IfOk result (λ v. v.width ≤ 128) }
{
    named(place, name, env)?.alone()
}

/// An expression by itself, from its parts, each of them visited once.
#[cycle(parts)]
#[tactic(auto, unfolding(crate::specs::Constants::worth, crate::specs::Constants::worth_by_parts, crate::specs::Selects::concat_worth, crate::specs::Worths::and_then))]
fn operand(alloc: Global, e: &Expr, env: &Env) -> Result<Operand, ConstFault>
    ensures value { Answers worth_of result (worth (values_of env.now) e.now) }
    ensures bound { IfOk result (λ a. a.shape.width ≤ 128) }
{
    match e {
        Expr::Number(place, n) => number(*place, n.get()),
        Expr::Name(place, name) => named(*place, name.as_slice(), env),
        Expr::Index(place, name, at) => {
            let value = selected(*place, name.as_slice(), env)?;
            let at = alone(alloc, at.get(), env)?;
            Ok(index(*place, value, at))
        }
        Expr::Select(part, place, name, first, second) => {
            let value = selected(*place, name.as_slice(), env)?;
            let first = alone(alloc, first.get(), env)?;
            let second = alone(alloc, second.get(), env)?;
            select(*place, value, *part, first, second)
        }
        Expr::Brackets(place, inner) => {
            let inner = operand(alloc, inner.get(), env)?;
            Ok(inner.at(*place))
        }
        Expr::Concat(place, members) => {
            let value = joined(alloc, *place, members.as_slice(), env)?;
            Ok(concat(*place, value))
        }
        Expr::Repeat(place, count, members) => {
            let count = alone(alloc, count.get(), env)?;
            let value = joined(alloc, *place, members.as_slice(), env)?;
            repeat(*place, count, value)
        }
        Expr::Unary(place, op, inner) => {
            let inner = operand(alloc, inner.get(), env)?;
            unary(alloc, *place, *op, inner)
        }
        Expr::Binary(place, op, left, right) => {
            let left = operand(alloc, left.get(), env);
            let right = operand(alloc, right.get(), env);
            between(alloc, *place, *op, left, right)
        }
        Expr::Conditional(place, test, left, right) => {
            let first = is_true(alone(alloc, test.get(), env)?);
            let left = operand(alloc, left.get(), env);
            let right = operand(alloc, right.get(), env);
            chosen(alloc, *place, first, left, right)
        }
    }
}

/// The value of a part that stands by itself.
#[cycle(parts)]
#[tactic(auto, unfolding(crate::specs::Worths::and_then))]
fn alone(alloc: Global, e: &Expr, env: &Env) -> Result<ConstValue, ConstFault>
    ensures value { Answers (λ v. v) result (and_then (worth (values_of env.now) e.now) alone) }
    ensures bound { IfOk result (λ v. v.width ≤ 128) }
{
    operand(alloc, e, env)?.alone()
}

/// Members side by side, the first one leftmost.
#[cycle(parts)]
#[tactic(auto, unfolding(crate::specs::Selects::joined, crate::specs::Worths::and_then))]
fn joined(
    alloc: Global,
    place: Place,
    members: &[Expr],
    env: &Env,
) -> Result<ConstValue, ConstFault>
    ensures value { Answers (λ v. v) result (joined place nothing (map (worth (values_of env.now)) members.now)) }
    ensures bound { IfOk result (λ v. v.width ≤ 128) }
{
    let mut so_far = nothing();
    for member in members {
        let value = match operand(alloc, member, env) {
            Ok(a) => match a.alone() {
                Ok(value) => value,
                Err(fault) => return Err(fault),
            },
            Err(fault) => return Err(fault),
        };
        so_far = match beside(place, so_far, value) {
            Ok(more) => more,
            Err(fault) => return Err(fault),
        };
    }
    Ok(so_far)
}

/// No bits.
fn nothing() -> ConstValue
    ensures value { result ≡ nothing }
{
    ConstValue {
        bits: 0,
        width: 0,
        signed: false,
    }
}

/// Members that are side by side, as an operand.
fn concat(place: Place, value: ConstValue) -> Operand
    requires { value.width ≤ 128 }
    ensures value { worth_of result ≡ fixed place (unsigned value.width) value.bits }
    ensures bound { result.shape.width ≤ 128 }
{
    let shape = Shape {
        width: value.width,
        signed: false,
    };
    fixed(place, shape, value.bits)
}

/// Whether a bit is 1.
fn is_true(value: ConstValue) -> bool
    ensures { result ≡ is_true value }
{
    value.bits != 0
}

/// The value of a constant expression that stands alone (IEEE 1364-2005, clause 5).
///
/// A z digit counts as 0. Selects of a name read 0 outside its positions, which are `width - 1` down to 0, and a part
/// or a count below 1 is of width 0: what a design may write there is for its elaboration to say.
///
/// # Errors
/// `NotConstant` where a name has no value or an exponent is negative, `TooWide` where a concatenation, a replication,
/// a part select or a given value passes 128 bits, `ZeroDivisor` where a divisor is 0, each at its place; also in a
/// side of `?:`, `&&` or `||` that doesn't decide. Of several one in the order of reading, parts first.
#[tactic(auto, unfolding(crate::specs::Constants::value_of, crate::specs::Worths::and_then))]
pub fn value(alloc: Global, e: &Expr, env: &Env) -> Result<ConstValue, ConstFault>
    ensures value { Answers (λ v. v) result (value_of (values_of env.now) e.now) }
    ensures bound { IfOk result (λ v. v.width ≤ 128) }
{
    operand(alloc, e, env)?.alone()
}

/// The value as on the right of an assignment to `width` bits: in a context of the larger width, by its own sign.
///
/// # Errors
/// As `value`, and `TooWide` where `width` passes 128.
#[tactic(auto, unfolding(crate::specs::Constants::value_within, crate::specs::Worths::narrow, crate::specs::Worths::and_then))]
pub fn value_within(
    alloc: Global,
    e: &Expr,
    env: &Env,
    width: u32,
) -> Result<ConstValue, ConstFault>
    ensures value { Answers (λ v. v) result (value_within (values_of env.now) width e.now) }
    ensures bound { IfOk result (λ v. v.width ≤ 128) }
{
    let a = operand(alloc, e, env)?;
    if 128 < width {
        return Err(ConstFault::TooWide(a.place));
    }
    a.in_context(Shape {
        width: a.shape.width.max(width),
        signed: a.shape.signed,
    })
}

/// The value in a context of some shape, as of a part of a longer expression.
///
/// # Errors
/// As `value`, and `TooWide` where the context passes 128 bits.
#[tactic(auto, unfolding(crate::specs::Constants::value_in, crate::specs::Constants::worth_in, crate::specs::Worths::narrow, crate::specs::Worths::and_then))]
pub fn value_in(
    alloc: Global,
    e: &Expr,
    env: &Env,
    context: Shape,
) -> Result<ConstValue, ConstFault>
    ensures value { Answers (λ v. v) result (value_in (values_of env.now) context e.now) }
    ensures bound { IfOk result (λ v. v.width ≤ 128) }
{
    let a = operand(alloc, e, env)?;
    if 128 < context.width {
        return Err(ConstFault::TooWide(a.place));
    }
    a.in_context(context)
}
