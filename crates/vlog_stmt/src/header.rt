//! What stands behind `for` (IEEE 1364-2005, A.6.8).

ghost use Rattle.std.specs.Prelude.{◌≡◌};
ghost use Rattle.vlog_expr.specs.Reading.{Reads};
ghost use Rattle.vlog_stmt.specs.Statements as spec;

use crate::words::{boxed, ident};
use sqlite_items::Boxed;
use std::alloc::Global;
use vlog_expr::{Cursor, Stuck};
use vlog_tree::{Expr, Ident, Loop};

/// id "=" expr ")" behind "(" id "=" expr ";" expr ";"
#[tactic(auto, unfolding(crate::specs::Statements::header_step))]
fn from_step(
    alloc: Global,
    cursor: &mut Cursor<'_>,
    room: usize,
    variable: Ident,
    start: Boxed<Expr>,
    test: Boxed<Expr>,
) -> Result<Loop, Stuck>
    ensures { Reads (spec.header_step room variable start test cursor.old) result cursor.new }
{
    let stepped = ident(alloc, cursor)?;
    cursor.expect(b"=")?;
    let step = boxed(alloc, cursor, room)?;
    cursor.expect(b")")?;
    Ok(Loop {
        variable,
        start,
        test,
        stepped,
        step,
    })
}

/// expr ";" id "=" expr ")" behind "(" id "=" expr ";"
#[tactic(auto, unfolding(crate::specs::Statements::header_test))]
fn from_test(
    alloc: Global,
    cursor: &mut Cursor<'_>,
    room: usize,
    variable: Ident,
    start: Boxed<Expr>,
) -> Result<Loop, Stuck>
    ensures { Reads (spec.header_test room variable start cursor.old) result cursor.new }
{
    let test = boxed(alloc, cursor, room)?;
    cursor.expect(b";")?;
    from_step(alloc, cursor, room, variable, start, test)
}

/// "(" id "=" expr ";" expr ";" id "=" expr ")", with expressions no deeper than `room`.
#[tactic(auto, unfolding(crate::specs::Statements::header, crate::specs::Statements::header_test, crate::specs::Statements::header_step))]
pub fn loop_header(alloc: Global, cursor: &mut Cursor<'_>, room: usize) -> Result<Loop, Stuck>
    ensures { Reads (spec.header room cursor.old) result cursor.new }
{
    cursor.expect(b"(")?;
    let variable = ident(alloc, cursor)?;
    cursor.expect(b"=")?;
    let start = boxed(alloc, cursor, room)?;
    cursor.expect(b";")?;
    from_test(alloc, cursor, room, variable, start)
}
