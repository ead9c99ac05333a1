//! Where tokens are cut: at each word `module`. No module has that word but in front.

ghost use Rattle.std.specs.Prelude.{◌≡◌, ◌+◌, length};
ghost use Rattle.vlog_lex.specs.Tokens.{AreWithin};
ghost use Rattle.vlog_tree.specs.Lexemes.{lexemes};
ghost use Rattle.vlog_expr.specs.Reading.{first};
ghost use Rattle.vlog_parse.specs.Cuts as spec;

use rdc_outside::Place;
use vlog_expr::Cursor;
use vlog_lex::Token;

/// A token stands in front, and it is not the word `module`.
fn is_inside(cursor: &Cursor<'_>) -> bool
    ensures { result ≡ spec.is_inside (first cursor.now) }
{
    cursor.left() > 0 && !cursor.sees_word(b"module")
}

/// On to the next word `module`, or the end.
fn on_to_module(cursor: &mut Cursor<'_>)
    ensures { cursor.new ≡ spec.from_module cursor.old }
{
    'tokens: while is_inside(cursor) {
        cursor.advance();
    }
}

/// How many tokens are left from the next word `module` on, the first token not looked at.
#[tactic(auto, unfolding(crate::specs::Cuts::next_module))]
pub(crate) fn left_from_module(bytes: &[u8], places: &[Place], tokens: &[Token]) -> usize
    requires places { length places.now ≡ length bytes.now + 1 }
    requires within { AreWithin (length bytes.now) tokens.now }
    ensures { result ≡ length (spec.next_module (lexemes bytes.now places.now tokens.now)) }
{
    let mut cursor = Cursor::new(bytes, places, tokens);
    cursor.advance();
    on_to_module(&mut cursor);
    cursor.left()
}
