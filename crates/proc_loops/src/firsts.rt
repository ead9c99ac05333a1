//! The first name that has a value, or that has none.
ghost use Rattle.std.specs.Prelude.{◌≡◌, map};
ghost use Rattle.vlog_const.specs.Names.{values_of};
ghost use Rattle.proc_loops.specs.Names.{first_among, first_name, if_passing};
ghost use Rattle.proc_loops.specs.Scopes.{stands};

use crate::names::sooner;
use crate::scope::Scope;
use rdc_outside::Place;
use vlog_tree::Expr;

/// The place of a name, where it has a value, or where it has none.
fn named(place: Place, name: &[u8], scope: &Scope, known: bool) -> Option<Place>
    ensures { result ≡ if_passing (stands known (values_of scope.now.env)) place name.now }
{
    if scope.stands(name, known) {
        return Some(place);
    }
    None
}

/// Where the first name stands that has a value, or that has none, in the order of reading.
#[cycle(firsts)]
#[tactic(auto, unfolding(crate::specs::Names::first_name, crate::specs::Names::first_by_parts))]
pub fn first_name(e: &Expr, scope: &Scope, known: bool) -> Option<Place>
    ensures { result ≡ first_name (stands known (values_of scope.now.env)) e.now }
{
    match e {
        Expr::Number(_, _) => None,
        Expr::Name(place, name) => named(*place, name.as_slice(), scope, known),
        Expr::Index(place, name, at) => sooner(
            named(*place, name.as_slice(), scope, known),
            first_name(at.get(), scope, known),
        ),
        Expr::Select(_, place, name, first, second) => {
            let parts = sooner(
                first_name(first.get(), scope, known),
                first_name(second.get(), scope, known),
            );
            sooner(named(*place, name.as_slice(), scope, known), parts)
        }
        Expr::Brackets(_, inner) => first_name(inner.get(), scope, known),
        Expr::Concat(_, members) => first_among(members.as_slice(), scope, known),
        Expr::Repeat(_, n, members) => sooner(
            first_name(n.get(), scope, known),
            first_among(members.as_slice(), scope, known),
        ),
        Expr::Unary(_, _, inner) => first_name(inner.get(), scope, known),
        Expr::Binary(_, _, left, right) => sooner(
            first_name(left.get(), scope, known),
            first_name(right.get(), scope, known),
        ),
        Expr::Conditional(_, test, left, right) => {
            let sides = sooner(
                first_name(left.get(), scope, known),
                first_name(right.get(), scope, known),
            );
            sooner(first_name(test.get(), scope, known), sides)
        }
    }
}

/// The first one of some expressions.
#[cycle(firsts)]
#[tactic(auto, unfolding(crate::specs::Names::first_among))]
fn first_among(es: &[Expr], scope: &Scope, known: bool) -> Option<Place>
    ensures { result ≡ first_among (map (first_name (stands known (values_of scope.now.env))) es.now) }
{
    for e in es {
        if let Some(place) = first_name(e, scope, known) {
            return Some(place);
        }
    }
    None
}
