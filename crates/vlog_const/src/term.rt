//! What is left to be computed of an expression once its context is known.
ghost use Rattle.std.specs.Prelude.{◌≡◌, ◌≤◌};
ghost use Rattle.vlog_const.specs.Operations.{divided};
ghost use Rattle.vlog_const.specs.Terms.{term_value};

use crate::answer::ConstFault;
use crate::operators::{arithmetic, is_division, shifted, sized};
use crate::shape::Shape;
use crate::words::extended;
use rdc_outside::Place;
use sqlite_items::Boxed;
use vlog_tree::{Binary, Unary};

/// Operators that take the context, over bits that are known.
#[derive(Debug, Drop)]
pub(crate) enum Term {
    /// So many bits, to be extended.
    Known(u32, u128),
    /// `+ - ~`
    Unary(Unary, Boxed<Term>),
    /// `+ - * / % & | ^ ~^`, with the place of the right operand
    Binary(Binary, Place, Boxed<Term>, Boxed<Term>),
    /// `<< >> <<< >>> **` by a number
    Shift(Binary, Boxed<Term>, u128),
    /// `?:`, and whether the first is taken
    Choice(bool, Boxed<Term>, Boxed<Term>),
}

/// An operator between two numbers of one context, unless it divides by 0.
#[tactic(auto, unfolding(crate::specs::Operations::divided))]
fn divided(op: Binary, place: Place, context: Shape, a: u128, b: u128) -> Result<u128, ConstFault>
    requires { context.width ≤ 128 }
    ensures { result ≡ divided op place context a b }
{
    if is_division(op) && b == 0 {
        return Err(ConstFault::ZeroDivisor(place));
    }
    Ok(arithmetic(op, context, a, b))
}

/// What a term gives in a context. It goes down the term, once into each part.
#[tactic(auto, unfolding(crate::specs::Terms::term_value, crate::specs::Terms::term_by_parts, crate::specs::Worths::and_then))]
pub(crate) fn evaluated(term: &Term, context: Shape) -> Result<u128, ConstFault>
    requires { context.width ≤ 128 }
    ensures { result ≡ term_value term.now context }
{
    match term {
        Term::Known(width, bits) => Ok(extended(*width, context, *bits)),
        Term::Unary(op, inner) => {
            let a = evaluated(inner.get(), context)?;
            Ok(sized(*op, context.width, a))
        }
        Term::Binary(op, place, left, right) => {
            let a = evaluated(left.get(), context)?;
            let b = evaluated(right.get(), context)?;
            divided(*op, *place, context, a, b)
        }
        Term::Shift(op, inner, count) => {
            let a = evaluated(inner.get(), context)?;
            Ok(shifted(*op, context, a, *count))
        }
        Term::Choice(first, left, right) => {
            let a = evaluated(left.get(), context)?;
            let b = evaluated(right.get(), context)?;
            Ok(if *first { a } else { b })
        }
    }
}
