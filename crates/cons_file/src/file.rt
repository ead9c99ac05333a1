//! The reader of a file.

ghost use Rattle.std.specs.Prelude.{◌≡◌, ◌<◌, ◌^◌, ◌↔◌, length, map, IsTrue, IfOk, IfSome, IfNone};
ghost use Rattle.cons_file.specs.Lines.{words_in};
ghost use Rattle.cons_file.specs.Forms.{Form, Spells};
ghost use Rattle.cons_file.specs.File.{heading, stated, form_said, Reads, IsAscending};

use crate::fault::ConsFault;
use crate::forms::form;
use crate::line::{Line, LineForm};
use crate::scanner::{count_rows, next_row};
use crate::words::split_word;
use std::alloc::Global;

/// Whether the words are those of the first line.
fn is_heading(text: &[u8]) -> bool
    ensures { IsTrue result ↔ (words_in text.now ≡ heading) }
{
    let (first, rest) = split_word(text);
    let (second, rest) = split_word(rest);
    let (third, _) = split_word(rest);
    first == b"rdc".as_slice() && second == b"1".as_slice() && third.is_empty()
}

/// What a line says, where it is ASCII and has a form.
fn said(text: &[u8]) -> Option<LineForm<'_>>
    ensures some { IfSome result (λ form. Spells text.now (form_said form)) }
    ensures none { IfNone result ((form : Form) → Spells text.now form → ⊥) }
{
    if !text.is_ascii() {
        return None;
    }
    form(text)
}

/// The lines of a file, the first and the blank ones left out. The names lie in the bytes. It goes twice over the
/// bytes, and takes room for exactly as many lines as aren't blank.
pub fn read_constraints<'a>(alloc: Global, bytes: &'a [u8]) -> Result<Vec<Line<'a>>, ConsFault>
    requires { length bytes.now < 2 ^ 32 }
    ensures reads { Reads bytes.now result }
    ensures ascending { IfOk result (λ lines. IsAscending (map stated lines.items)) }
{
    let Some((head, mut number, mut rest)) = next_row(1, bytes) else {
        return Err(ConsFault::Version(1));
    };
    if !is_heading(head.text) {
        return Err(ConsFault::Version(head.number));
    }
    let mut lines = Vec::with_capacity(alloc, count_rows(bytes))?;
    while let Some((row, next, after)) = next_row(number, rest) {
        let Some(form) = said(row.text) else {
            return Err(ConsFault::BadLine(row.number));
        };
        lines.push(Line {
            number: row.number,
            form,
        })?;
        number = next;
        rest = after;
    }
    Ok(lines)
}
