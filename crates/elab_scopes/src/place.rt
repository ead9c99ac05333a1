//! Where an expression stands.
ghost use Rattle.std.specs.Prelude.{◌≡◌};
ghost use Rattle.elab_scopes.specs.Ranges.{place_of};

use rdc_outside::Place;
use vlog_tree::Expr;

/// The place of an expression's first token.
#[tactic(auto, using(crate::proofs::PlaceForms::forms))]
pub fn place_of(e: &Expr) -> Place
    ensures { result ≡ place_of e.now }
{
    match e {
        Expr::Number(place, _)
        | Expr::Name(place, _)
        | Expr::Index(place, _, _)
        | Expr::Select(_, place, _, _, _)
        | Expr::Brackets(place, _)
        | Expr::Concat(place, _)
        | Expr::Repeat(place, _, _)
        | Expr::Unary(place, _, _)
        | Expr::Binary(place, _, _, _)
        | Expr::Conditional(place, _, _, _) => *place,
    }
}
