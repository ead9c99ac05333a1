//! Names in front of a cursor.

ghost use Rattle.std.specs.Prelude.{◌≡◌};
ghost use Rattle.vlog_expr.specs.Reading.{first};
ghost use Rattle.vlog_parse.specs.Parts.{names};

use vlog_expr::Cursor;

/// The next token is a name.
#[tactic(auto, unfolding(crate::specs::Parts::names, crate::specs::Parts::is_name))]
pub(crate) fn sees_name(cursor: &Cursor<'_>) -> bool
    ensures { result ≡ names (first cursor.now) }
{
    match cursor.name() {
        None => false,
        Some(_) => true,
    }
}
