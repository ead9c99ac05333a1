//! Names, and what may be left out.

ghost use Rattle.std.specs.Prelude.{◌≡◌, ◌≤◌, length, Ok};
ghost use Rattle.vlog_expr.specs.Reading.{Reads, first, sees};
ghost use Rattle.vlog_stmt.specs.Lists as spec;
ghost use Rattle.vlog_stmt.specs.Targets.{value};

use sqlite_items::Boxed;
use std::alloc::Global;
use vlog_expr::{Cursor, Stuck, plain_expr};
use vlog_tree::{Expr, Ident, Name};

/// id
#[tactic(auto, unfolding(crate::specs::Lists::ident, crate::specs::Lists::known, crate::specs::Lists::known_by))]
pub fn ident(alloc: Global, cursor: &mut Cursor<'_>) -> Result<Ident, Stuck>
    ensures { Reads (spec.ident cursor.old) result cursor.new }
{
    let place = cursor.place();
    let Some(name) = cursor.name() else {
        return Err(Stuck::Wrong);
    };
    cursor.advance();
    let name = Name::from_slice(alloc, name)?;
    Ok(Ident { place, name })
}

/// An expression without z digits, no deeper than `room`, in a box.
pub(crate) fn boxed(
    alloc: Global,
    cursor: &mut Cursor<'_>,
    room: usize,
) -> Result<Boxed<Expr>, Stuck>
    ensures { Reads (value room cursor.old) result cursor.new }
{
    let expr = plain_expr(alloc, cursor, room)?;
    Ok(Boxed::new(alloc, expr)?)
}

/// Past the mark, if it stands in front. Whether it did.
#[tactic(auto, unfolding(crate::specs::Lists::took))]
pub fn took(cursor: &mut Cursor<'_>, mark: &[u8]) -> bool
    requires { 1 ≤ length mark.now }
    ensures { Reads (spec.took mark.now cursor.old) (Ok result) cursor.new }
{
    if !cursor.sees(mark) {
        return false;
    }
    cursor.advance();
    true
}

/// Past the word, if it stands in front. Whether it did.
#[tactic(auto, unfolding(crate::specs::Lists::took_word))]
pub fn took_word(cursor: &mut Cursor<'_>, word: &[u8]) -> bool
    requires { 1 ≤ length word.now }
    ensures { Reads (spec.took_word word.now cursor.old) (Ok result) cursor.new }
{
    if !cursor.sees_word(word) {
        return false;
    }
    cursor.advance();
    true
}

/// [ ":" id ]
#[tactic(auto, unfolding(crate::specs::Lists::label, crate::specs::Lists::within))]
pub fn label(alloc: Global, cursor: &mut Cursor<'_>, room: usize) -> Result<Option<Ident>, Stuck>
    ensures { Reads (spec.label room cursor.old) result cursor.new }
{
    if !cursor.sees(b":") {
        return Ok(None);
    }
    if room == 0 {
        return Err(Stuck::Deep);
    }
    cursor.expect(b":")?;
    let name = ident(alloc, cursor)?;
    Ok(Some(name))
}
