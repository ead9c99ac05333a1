//! Names and strings on a directive's line.
ghost use Rattle.std.specs.Prelude.{◌≡◌, ◌≤◌, length, IfOk, OnOk, slice_index, IsTrue, MatchOption, false, true, string_bytes};
ghost use Rattle.std.specs.List.{list_all};
ghost use Rattle.std.specs.Char.{is_ascii};
ghost use Rattle.vlog_pre.specs.Readings.{word_of, after_word, after_blanks, is_name, begins_with, IsRead};

use std::alloc::AllocError;
use vlog_items::{Ahead, Class, Reader, letter};

/// Whether such a byte stands first.
pub(crate) fn begins(reader: &Reader, byte: u8) -> bool
    ensures { result ≡ begins_with byte reader.now.items }
{
    match reader.ahead() {
        Ahead::Read(b, _) => b == byte,
        Ahead::Ended(_) => false,
        Ahead::Coming => false,
        Ahead::Nothing => false,
    }
}

/// Reads the word behind the blanks on the line.
pub(crate) fn word(reader: &mut Reader) -> Result<Vec<u8>, AllocError>
    ensures value { IfOk result (λ word. word.items ≡ word_of (after_blanks reader.old.items)) }
    ensures items { OnOk result (reader.new.items ≡ after_word (after_blanks reader.old.items)) }
    ensures names { OnOk result (reader.new.names ≡ reader.old.names) }
    ensures shorter { OnOk result (length reader.new.items ≤ length reader.old.items) }
{
    reader.skip(Class::LineBlank)?;
    reader.run(Class::NameByte)
}

// The first byte, or 0 where there is none.
fn first(word: &[u8]) -> u8
    ensures { result ≡ slice_index word.now 0 }
{
    if word.len() > 0 { word[0] } else { 0 }
}

/// Whether a word is a name.
pub(crate) fn names(word: &[u8]) -> bool
    ensures { result ≡ is_name word.now }
{
    letter(first(word))
}
