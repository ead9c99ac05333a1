//! `include`.
ghost use Rattle.std.specs.Prelude.{◌≡◌, ◌≤◌, ◌<◌, length, OnOk, IfOk, IsTrue, MatchOption, false, drop, string_bytes};
ghost use Rattle.std.specs.List.{list_all};
ghost use Rattle.std.specs.Char.{is_ascii};
ghost use Rattle.vlog_pre.specs.Known.{state_of, IsStep, Proceeds, name_at};
ghost use Rattle.vlog_pre.specs.Readings.{has_string, quoted_of, after_quoted};
ghost use Rattle.vlog_pre.specs.Directives.{opened, included};

use crate::fault::PreFault;
use crate::known::{Known, name_of};
use crate::outcome::Outcome;
use crate::words::begins;
use rdc_outside::Place;
use std::alloc::{AllocError, Global};
use vlog_items::{Class, Reader};

fn is_ascii(bytes: &[u8]) -> bool
    ensures { result ≡ list_all is_ascii bytes.now }
{
    bytes.iter().all(|b| *b < 128)
}

// The text of ASCII bytes.
fn ascii_text(bytes: Vec<u8>) -> Option<String>
    ensures { MatchOption result (list_all is_ascii bytes.items ≡ false) (λ text. IsTrue (list_all is_ascii bytes.items) × (string_bytes text ≡ bytes.items)) }
{
    if !is_ascii(&bytes) {
        return None;
    }
    match String::from_utf8(bytes) {
        Ok(text) => Some(text),
        Err(_) => None,
    }
}

// Reads a string of ASCII. None where there is none.
fn string(reader: &mut Reader) -> Result<Option<String>, AllocError>
    ensures read { IfOk result (λ found. MatchOption found (has_string reader.old.items ≡ false)
        (λ text. IsTrue (has_string reader.old.items) × (string_bytes text ≡ quoted_of reader.old.items) × (reader.new.items ≡ drop 1 (after_quoted reader.old.items)))) }
    ensures names { OnOk result (reader.new.names ≡ reader.old.names) }
    ensures shorter { OnOk result (length reader.new.items ≤ length reader.old.items) }
{
    if !begins(reader, b'"') {
        return Ok(None);
    }
    reader.advance()?;
    let bytes = reader.run(Class::Quotable)?;
    if !begins(reader, b'"') {
        return Ok(None);
    }
    reader.advance()?;
    Ok(ascii_text(bytes))
}

// Asks for a file, one level deeper.
fn open(
    alloc: Global,
    known: &mut Known,
    place: Place,
    name: String,
    reader: &Reader,
) -> Result<Outcome, PreFault>
    requires { known.old.count < 1048576 }
    ensures step { IsStep result (state_of known.new) reader.now (opened (state_of known.old) place reader.now.names (string_bytes name) reader.now.items) }
    ensures nearer { Proceeds result (state_of known.old) reader.now.items (state_of known.new) reader.now.items }
{
    if known.depth >= 32 {
        return Err(PreFault::TooDeep(place));
    }
    if known.count + 1 == 1_048_576 {
        return Err(PreFault::TooLong(name_of(alloc, known, place)?));
    }
    known.levels.enter()?;
    known.count += 1;
    known.depth += 1;
    Ok(Outcome::Loads(name))
}

/// `include`, whose name was read.
pub(crate) fn include(
    alloc: Global,
    known: &mut Known,
    place: Place,
    reader: &mut Reader,
) -> Result<Outcome, PreFault>
    requires { known.old.count < 1048576 }
    ensures step { IsStep result (state_of known.new) reader.new (included (state_of known.old) place reader.old.names reader.old.items) }
    ensures nearer { Proceeds result (state_of known.old) reader.old.items (state_of known.new) reader.new.items }
{
    reader.skip(Class::LineBlank)?;
    match string(reader)? {
        None => Err(PreFault::BadMacroUse(place)),
        Some(name) => open(alloc, known, place, name, reader),
    }
}
