//! Which statement a token begins.

ghost use Rattle.std.specs.Prelude.{◌≡◌};
ghost use Rattle.vlog_tree.specs.Operators.{part_of};
ghost use Rattle.vlog_tree.specs.Statements.{assigns_of};
ghost use Rattle.vlog_expr.specs.Reading.{first};
ghost use Rattle.vlog_expr.specs.Exprs.{part_if};
ghost use Rattle.vlog_stmt.specs.Targets.{begins_target};
ghost use Rattle.vlog_stmt.specs.Statements.{form_if, assigns_if};

use vlog_expr::Cursor;
use vlog_tree::{Assigns, Part};

/// Which statement a token begins.
#[derive(Clone, Copy, Debug, PartialEq, Eq)]
pub enum Form {
    Empty,
    Block,
    If,
    Case,
    Casez,
    For,
    /// An assignment, by its target.
    Target,
    /// None.
    Other,
}

/// A target begins with the next token: with a name or a brace.
#[tactic(auto, unfolding(crate::specs::Targets::begins_target, crate::specs::Targets::is_named))]
pub(crate) fn begins_target(cursor: &Cursor<'_>) -> bool
    ensures { result ≡ begins_target (first cursor.now) }
{
    match cursor.name() {
        Some(_) => true,
        None => cursor.sees(b"{"),
    }
}

/// Which statement the next token begins.
#[tactic(auto, unfolding(crate::specs::Statements::form_if))]
pub(crate) fn form_of(cursor: &Cursor<'_>) -> Form
    ensures { result ≡ form_if (first cursor.now) }
{
    if cursor.sees(b";") {
        Form::Empty
    } else if cursor.sees_word(b"begin") {
        Form::Block
    } else if cursor.sees_word(b"if") {
        Form::If
    } else if cursor.sees_word(b"case") {
        Form::Case
    } else if cursor.sees_word(b"casez") {
        Form::Casez
    } else if cursor.sees_word(b"for") {
        Form::For
    } else if begins_target(cursor) {
        Form::Target
    } else {
        Form::Other
    }
}

/// : +: -:
#[tactic(auto, unfolding(vlog_tree::specs::Operators::part_of))]
fn part_of(mark: &[u8]) -> Option<Part>
    ensures { result ≡ part_of mark.now }
{
    match mark {
        [] => None,
        [a] => { if *a == b':' { Some(Part::Fixed) } else { None } }
        [a, b] => {
            if *b != b':' {
                None
            } else if *a == b'+' {
                Some(Part::Up)
            } else if *a == b'-' {
                Some(Part::Down)
            } else {
                None
            }
        }
        [_, _, _, ..] => None,
    }
}

/// The mark in the middle of a part select.
#[tactic(auto, unfolding(vlog_expr::specs::Exprs::part_if))]
pub(crate) fn part(cursor: &Cursor<'_>) -> Option<Part>
    ensures { result ≡ part_if (first cursor.now) }
{
    part_of(cursor.mark())
}

/// = or <=
#[tactic(auto, unfolding(vlog_tree::specs::Statements::assigns_of))]
fn assigns_of(mark: &[u8]) -> Option<Assigns>
    ensures { result ≡ assigns_of mark.now }
{
    match mark {
        [] => None,
        [a] => {
            if *a == b'=' {
                Some(Assigns::Blocking)
            } else {
                None
            }
        }
        [a, b] => {
            if *a == b'<' && *b == b'=' {
                Some(Assigns::Nonblocking)
            } else {
                None
            }
        }
        [_, _, _, ..] => None,
    }
}

/// The mark between a target and its value.
#[tactic(auto, unfolding(crate::specs::Statements::assigns_if))]
pub(crate) fn assigns(cursor: &Cursor<'_>) -> Option<Assigns>
    ensures { result ≡ assigns_if (first cursor.now) }
{
    assigns_of(cursor.mark())
}
