//! What lists with commas repeat: names and expressions.

ghost use Rattle.std.specs.Prelude.{◌≡◌, false};
ghost use Rattle.vlog_expr.specs.Exprs.{expr};
ghost use Rattle.vlog_stmt.specs.Lists as spec;
ghost use Rattle.vlog_stmt.specs.Targets.{value};

use crate::lists::Piece;
use crate::words::ident;
use std::alloc::Global;
use vlog_expr::{Cursor, Stuck, any_expr, plain_expr};
use vlog_tree::{Expr, Ident};

/// id
#[derive(Clone, Copy)]
pub struct Names {
    pub alloc: Global,
}

impl Piece for Names {
    type Out = Ident;

    ghost ready = { λ s. Unit {0} };

    ghost goes_on = { λ s o. false };

    ghost reader = { λ s. spec.ident };

    fn goes_on(&self, _cursor: &Cursor<'_>) -> bool {
        false
    }

    fn read(&self, cursor: &mut Cursor<'_>) -> Result<Ident, Stuck> {
        ident(self.alloc, cursor)
    }
}

/// An expression no deeper than `room`, in which no number has z digits.
#[derive(Clone, Copy)]
pub struct Values {
    pub alloc: Global,
    pub room: usize,
}

impl Piece for Values {
    type Out = Expr;

    ghost ready = { λ s. Unit {0} };

    ghost goes_on = { λ s o. false };

    ghost reader = { λ s. value s.room };

    fn goes_on(&self, _cursor: &Cursor<'_>) -> bool {
        false
    }

    fn read(&self, cursor: &mut Cursor<'_>) -> Result<Expr, Stuck> {
        plain_expr(self.alloc, cursor, self.room)
    }
}

/// An expression no deeper than `room`.
#[derive(Clone, Copy)]
pub struct Wilds {
    pub alloc: Global,
    pub room: usize,
}

impl Piece for Wilds {
    type Out = Expr;

    ghost ready = { λ s. Unit {0} };

    ghost goes_on = { λ s o. false };

    ghost reader = { λ s. expr s.room 0 };

    fn goes_on(&self, _cursor: &Cursor<'_>) -> bool {
        false
    }

    fn read(&self, cursor: &mut Cursor<'_>) -> Result<Expr, Stuck> {
        any_expr(self.alloc, cursor, self.room)
    }
}
