//! The reader of lines.

ghost use Rattle.std.specs.Prelude.{◌≡◌, ◌↔◌, List, ◌∷◌, [], map, true, false, IsTrue, IfOk, IfSome, IfNone, IsErrOf, codes, if◌then◌else◌};
ghost use Rattle.thin_cons.specs.Lines.{words_in, rows_of};
ghost use Rattle.thin_cons.specs.Forms.{Declaration, heading, words_of, declaration_of, IsFile};

use crate::fault::LinesFault;
use crate::line::Line;
use crate::scanner::{next_row, word};
use std::alloc::Global;

/// Whether the row is the first line's.
fn is_heading(text: &[u8]) -> bool
    ensures { IsTrue result ↔ (words_in text.now ≡ heading) }
{
    let (first, rest) = word(text);
    let (second, rest) = word(rest);
    let (third, _) = word(rest);
    first == b"rdc".as_slice() && second == b"1".as_slice() && third.is_empty()
}

/// Whether the word is a level, and whether it is high.
fn level(text: &[u8]) -> Option<bool>
    ensures some { IfSome result (λ high. text.now ≡ (if high then codes "high" else codes "low")) }
    ensures high { text.now ≡ codes "high" → result ≡ Some true }
    ensures low { text.now ≡ codes "low" → result ≡ Some false }
{
    if text == b"high".as_slice() {
        Some(true)
    } else if text == b"low".as_slice() {
        Some(false)
    } else {
        None
    }
}

/// What a row says.
fn line(text: &[u8]) -> Option<Line<'_>>
    ensures some { IfSome result (λ line. words_in text.now ≡ words_of (declaration_of line)) }
    ensures none { IfNone result ((declaration : Declaration) → words_in text.now ≡ words_of declaration → ⊥) }
{
    let (first, rest) = word(text);
    let (port, rest) = word(rest);
    let (last, rest) = word(rest);
    let (more, _) = word(rest);
    if port.is_empty() || !more.is_empty() {
        return None;
    }
    if first == b"clock".as_slice() && last.is_empty() {
        return Some(Line::Clock(port));
    }
    if first == b"reset".as_slice() {
        let high = level(last)?;
        return Some(Line::Reset(port, high));
    }
    None
}

/// The lines that the bytes spell after the first.
pub fn read_lines<'a>(alloc: Global, bytes: &'a [u8]) -> Result<Vec<Line<'a>>, LinesFault>
    ensures ok { IfOk result (λ lines. IsFile bytes.now (map declaration_of lines.items)) }
    ensures not_of_form { IsErrOf result LinesFault.NotOfForm → (declarations : List Declaration) → IsFile bytes.now declarations → ⊥ }
{
    let Some((text, mut rest)) = next_row(bytes) else {
        return Err(LinesFault::NotOfForm);
    };
    if !is_heading(text) {
        return Err(LinesFault::NotOfForm);
    }
    let mut lines = Vec::new(alloc);
    while let Some((text, after)) = next_row(rest) {
        let Some(line) = line(text) else {
            return Err(LinesFault::NotOfForm);
        };
        lines.push(line)?;
        rest = after;
    }
    Ok(lines)
}
