//! Whether names stand in expressions.
ghost use Rattle.std.specs.Prelude.{◌≡◌, map};
ghost use Rattle.std.specs.List.{list_any};
ghost use Rattle.design_sizes.specs.Sizes.{has_name};

use vlog_tree::Expr;

/// Whether a name stands in an expression. What stands behind the first one is not looked at.
#[cycle(naming)]
#[tactic(auto, unfolding(crate::specs::Sizes::has_name, crate::specs::Sizes::named_by_parts))]
pub fn has_name(e: &Expr) -> bool
    ensures { result ≡ has_name e.now }
{
    match e {
        Expr::Number(_, _) => false,
        Expr::Name(_, _) | Expr::Index(_, _, _) | Expr::Select(_, _, _, _, _) => true,
        Expr::Brackets(_, inner) => has_name(inner.get()),
        Expr::Concat(_, members) => any_has_name(members.as_slice()),
        Expr::Repeat(_, n, members) => has_name(n.get()) || any_has_name(members.as_slice()),
        Expr::Unary(_, _, inner) => has_name(inner.get()),
        Expr::Binary(_, _, left, right) => has_name(left.get()) || has_name(right.get()),
        Expr::Conditional(_, test, left, right) => {
            has_name(test.get()) || (has_name(left.get()) || has_name(right.get()))
        }
    }
}

/// Whether a name stands in one of these.
#[cycle(naming)]
fn any_has_name(members: &[Expr]) -> bool
    ensures { result ≡ list_any (λ b. b) (map has_name members.now) }
{
    for member in members {
        if has_name(member) {
            return true;
        }
    }
    false
}
