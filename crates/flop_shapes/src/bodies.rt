//! Bodies that test.
ghost use Rattle.std.specs.Prelude.{◌≡◌};
ghost use Rattle.std.specs.Option.{option_map};
ghost use Rattle.flop_shapes.specs.Shapes.{choice_of, chosen, only_choice};

use vlog_tree::{Expr, Stmt};

/// The parts of `if (test) yes else no`.
#[tactic(auto, unfolding(crate::specs::Shapes::choice_of, crate::specs::Shapes::choice_in))]
fn choice(body: &Stmt) -> Option<(&Expr, &Stmt, &Stmt)>
    ensures { option_map (λ c. (c.0.now, c.1.now, c.2.now)) result ≡ choice_of body.now }
{
    match body {
        Stmt::If(_, test, yes, Some(no)) => Some((test, yes.get(), no.get())),
        _ => None,
    }
}

/// The same of the one statement of a block.
#[tactic(auto, unfolding(crate::specs::Shapes::only_choice))]
fn only_choice(statements: &[Stmt]) -> Option<(&Expr, &Stmt, &Stmt)>
    ensures { option_map (λ c. (c.0.now, c.1.now, c.2.now)) result ≡ only_choice statements.now }
{
    match statements {
        [only] => choice(only),
        _ => None,
    }
}

/// The same, alone or in one `begin .. end`.
#[tactic(auto, unfolding(crate::specs::Shapes::chosen, crate::specs::Shapes::chosen_in))]
pub(crate) fn chosen(body: &Stmt) -> Option<(&Expr, &Stmt, &Stmt)>
    ensures { option_map (λ c. (c.0.now, c.1.now, c.2.now)) result ≡ chosen body.now }
{
    match body {
        Stmt::If(_, test, yes, Some(no)) => Some((test, yes.get(), no.get())),
        Stmt::Block(_, _, statements) => only_choice(statements.as_slice()),
        _ => None,
    }
}
