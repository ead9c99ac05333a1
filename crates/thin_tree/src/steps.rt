//! An expression as a list of steps, each after what it works on.

ghost use Rattle.std.specs.Prelude.{◌≡◌, map};
ghost use Rattle.thin_tree.specs.Postfix.{step_of, IsPostfix};

use std::marker::Model;

/// A name, or what is done to the one or two values before it.
#[derive(Clone, Copy, Debug, PartialEq, Eq)]
pub enum Step<'a> {
    Name(&'a [u8]),
    /// The value before it stands in brackets.
    Brackets,
    Not,
    And,
    Or,
}

/// An expression, its names lent by the text.
#[derive(Drop)]
pub struct Expression<'a> {
    steps: Vec<Step<'a>>,
}

impl<'a> Model for Expression<'a> {
    ghost use Rattle.std.specs.Prelude.{List, map};
    ghost use Rattle.thin_tree.specs.Postfix as postfix;
    ghost use Rattle.thin_tree.specs.Postfix.{step_of, IsPostfix};

    ghost Value = { List postfix.Step };

    ghost view = { λ e. map step_of e.steps.items };

    ghost invariant = { λ e. IsPostfix (map step_of e.steps.items) };
}

impl<'a> Expression<'a> {
    /// The expression of these steps.
    pub(crate) fn of(steps: Vec<Step<'a>>) -> Expression<'a>
        requires { IsPostfix (map step_of steps.items) }
        ensures { result ≡ map step_of steps.entry.items }
    {
        Expression { steps }
    }

    /// The steps, each behind what it works on.
    pub fn steps(&self) -> &[Step<'a>]
        ensures value { map step_of result.now ≡ self.now }
        ensures whole { IsPostfix self.now }
    {
        &self.steps
    }
}
