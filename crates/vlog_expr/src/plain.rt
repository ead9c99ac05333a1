//! Expressions for readers of what stands round them.

ghost use Rattle.vlog_expr.specs.Reading.{Reads};
ghost use Rattle.vlog_expr.specs.Exprs.{expr};
ghost use Rattle.vlog_expr.specs.Plain.{plain};

use crate::cursor::Cursor;
use crate::grammar::expr;
use crate::stuck::Stuck;
use std::alloc::Global;
use vlog_tree::Expr;

/// An expression no deeper than `room`, in front of a cursor. Numbers with z digits may stand in it.
pub fn any_expr(alloc: Global, cursor: &mut Cursor<'_>, room: usize) -> Result<Expr, Stuck>
    ensures { Reads (expr room 0 cursor.old) result cursor.new }
{
    let found = expr(alloc, cursor, room, 0)?;
    Ok(found.into_expr())
}

/// An expression no deeper than `room`, in front of a cursor, in which no number has z digits. It stops at such a number.
#[tactic(auto, unfolding(crate::specs::Plain::plain), using(crate::proofs::MaskLemmas::sights))]
pub fn plain_expr(alloc: Global, cursor: &mut Cursor<'_>, room: usize) -> Result<Expr, Stuck>
    ensures { Reads (plain (expr room 0) cursor.old) result cursor.new }
{
    let mut masked = cursor.masked();
    let found = any_expr(alloc, &mut masked, room);
    cursor.leave(masked.left());
    found
}
