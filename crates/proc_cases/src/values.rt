//! The values that a selector may take, as they are compared.
ghost use Rattle.std.specs.Prelude.{◌≡◌, ◌-◌, ◌^◌, ◌<◌, ◌≤◌};
ghost use Rattle.vlog_const.specs.Words.{is_negative};
ghost use Rattle.proc_cases.specs.Full.{is_handed, takes_context, value_in_case};

use vlog_const::{Family, Shape, family, operand_family};
use vlog_tree::Expr;

/// Whether an operator hands its context down.
#[tactic(auto, unfolding(crate::specs::Full::is_handed))]
fn is_handed(family: Family) -> bool
    ensures { result ≡ is_handed family }
{
    match family {
        Family::Contextual | Family::Leading => true,
        Family::Compared | Family::Alone => false,
    }
}

/// Whether the width around it changes the value of an expression.
#[tactic(auto, unfolding(crate::specs::Full::takes_context, crate::specs::Full::context_by_parts))]
pub(crate) fn takes_context(e: &Expr) -> bool
    ensures { result ≡ takes_context e.now }
{
    match e {
        Expr::Brackets(_, inner) => takes_context(inner.get()),
        Expr::Unary(_, op, _) => is_handed(operand_family(*op)),
        Expr::Binary(_, op, _, _) => is_handed(family(*op)),
        Expr::Conditional(_, _, _, _) => true,
        Expr::Number(_, _)
        | Expr::Name(_, _)
        | Expr::Index(_, _, _)
        | Expr::Select(_, _, _, _, _)
        | Expr::Concat(_, _)
        | Expr::Repeat(_, _, _) => false,
    }
}

/// As many ones.
fn ones(width: u32) -> u128
    requires { width ≤ 128 }
    ensures { result ≡ 2 ^ width - 1 }
{
    if width < 128 {
        (1u128 << width) - 1
    } else {
        u128::MAX
    }
}

/// Whether the top bit of a signed number is 1.
#[tactic(auto, unfolding(vlog_const::specs::Words::is_negative))]
fn is_negative(signed: bool, width: u32, number: u128) -> bool
    requires { width ≤ 12 }
    ensures { result ≡ is_negative signed width number }
{
    signed && (1u128 << width.saturating_sub(1)) <= number
}

/// A number of so many bits, as it is compared.
#[tactic(auto, unfolding(crate::specs::Full::value_in_case))]
pub(crate) fn value_in_case(context: Shape, width: u32, number: u128) -> u128
    requires width { width ≤ 12 }
    requires context { context.width ≤ 128 }
    requires number { number < 2 ^ width }
    ensures { result ≡ value_in_case context width number }
{
    if is_negative(context.signed, width, number) {
        let fill = ones(context.width).saturating_sub(ones(width));
        return number + fill;
    }
    number
}
