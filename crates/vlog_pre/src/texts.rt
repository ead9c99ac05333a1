//! The text of a macro.
ghost use Rattle.std.specs.Prelude.{◌≡◌, ◌≤◌, [], length, false, IfOk, OnOk};
ghost use Rattle.vlog_items.specs.declared.modes.Mode.TheVariants.{Plain};
ghost use Rattle.vlog_pre.specs.Macros.{is_line_comment, is_dropped, text_turn_of, text_from};

use crate::words::begins;
use rdc_outside::Seq;
use std::alloc::{AllocError, Global};
use vlog_items::{Ahead, Mode, Reader};

/// What a byte does in a macro's text.
#[derive(Clone, Copy, Debug, PartialEq, Eq)]
pub(crate) enum TextTurn {
    /// It is a `\` that goes on with the text on the next line.
    Continues,
    /// It is one of a line comment.
    Drops,
    Keeps,
}

#[tactic(auto, unfolding(crate::specs::Macros::is_line_comment))]
fn line_comment(mode: Mode) -> bool
    ensures { result ≡ is_line_comment mode }
{
    match mode {
        Mode::LineComment => true,
        Mode::Plain
        | Mode::Slash
        | Mode::BlockComment
        | Mode::Star
        | Mode::Quoted
        | Mode::Escaped => false,
    }
}

#[tactic(auto, unfolding(crate::specs::Macros::is_dropped))]
fn dropped(mode: Mode, b: u8, rest: &Reader) -> bool
    ensures { result ≡ is_dropped mode b rest.now.items }
{
    line_comment(mode) || (mode.is_plain() && b == b'/' && begins(rest, b'/'))
}

#[tactic(auto, unfolding(crate::specs::Macros::text_turn_of))]
fn turn(mode: Mode, b: u8, rest: &Reader) -> TextTurn
    ensures { result ≡ text_turn_of mode b rest.now.items }
{
    if b == b'\\' && begins(rest, b'\n') {
        TextTurn::Continues
    } else if b != b'\n' && dropped(mode, b, rest) {
        TextTurn::Drops
    } else {
        TextTurn::Keeps
    }
}

/// Reads a macro's text, up to the end of its last line.
pub(crate) fn text(alloc: Global, reader: &mut Reader) -> Result<Seq<u8>, AllocError>
    ensures read { IfOk result (λ found. text_from Plain false [] reader.old.items ≡ (found, reader.new.items)) }
    ensures names { OnOk result (reader.new.names ≡ reader.old.names) }
    ensures shorter { OnOk result (length reader.new.items ≤ length reader.old.items) }
{
    let mut mode = Mode::Plain;
    let mut continued = false;
    let mut text = Seq::new(alloc);
    'bytes: while let Ahead::Read(b, _) = reader.ahead() {
        if b == b'\n' && !continued {
            return Ok(text);
        }
        reader.advance()?;
        match turn(mode, b, reader) {
            TextTurn::Continues => continued = true,
            TextTurn::Drops => {
                continued = false;
                mode = Mode::LineComment;
            }
            TextTurn::Keeps => {
                text.push(b)?;
                continued = false;
                mode = mode.after(b);
            }
        }
    }
    Ok(text)
}
