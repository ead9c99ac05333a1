//! Files and their expansions, worked by hand from the rules.
mod conditionals;
mod files;
mod macros;
mod parameters;
mod plain;

use rdc_outside::{MemShelf, Place, Text};
use std::alloc::{AllocError, Global};
use std::test::Fail;
use vlog_pre::{PreFault, Stopped, expand};

// The files that every row may include.
const SHELF: [(&str, &[u8]); 7] = [
    ("b.v", b"b\n"),
    ("open.v", b"x\n`ifdef X\ny\n"),
    ("note.v", b"/* open"),
    ("def.v", b"`define B 7\n"),
    ("self.v", b"`include \"self.v\""),
    ("end.v", b"`endif\n"),
    ("use.v", b"`A"),
];

// A shelf with those files, and `a.v`.
fn shelf_of(alloc: Global, bytes: &[u8], failing: &[u64]) -> Result<MemShelf, Fail> {
    let mut files = Vec::new(alloc);
    files.push((
        String::from_str(alloc, "a.v")?,
        Vec::from_slice(alloc, bytes)?,
    ))?;
    for (name, content) in &SHELF {
        files.push((
            String::from_str(alloc, *name)?,
            Vec::from_slice(alloc, *content)?,
        ))?;
    }
    Ok(MemShelf::new(alloc, files, Vec::from_slice(alloc, failing)?, 0)?)
}

fn names_of(alloc: Global, names: &[&str]) -> Result<Vec<String>, AllocError> {
    let mut all = Vec::new(alloc);
    for name in names {
        all.push(String::from_str(alloc, *name)?)?;
    }
    Ok(all)
}

fn place_shown(alloc: Global, place: Place) -> Result<String, AllocError> {
    let file = place.file;
    let line = place.line;
    let col = place.col;
    format!(in alloc; "{file}:{line}:{col}")
}

fn named(alloc: Global, word: &str, name: &[u8]) -> Result<String, AllocError> {
    let text = String::from_utf8_lossy(alloc, name)?;
    format!(in alloc; "{word} {text}")
}

fn placed(alloc: Global, word: &str, place: Place) -> Result<String, AllocError> {
    let text = place_shown(alloc, place)?;
    format!(in alloc; "{word} {text}")
}

fn fault_shown(alloc: Global, fault: PreFault) -> Result<String, AllocError> {
    match fault {
        PreFault::Memory => String::from_str(alloc, "Memory"),
        PreFault::Absent(name) => named(alloc, "Absent", name.as_slice()),
        PreFault::Read(name) => named(alloc, "Read", name.as_slice()),
        PreFault::TooLong(name) => named(alloc, "TooLong", name.as_slice()),
        PreFault::UnknownDirective(place) => placed(alloc, "UnknownDirective", place),
        PreFault::Unbalanced(place) => placed(alloc, "Unbalanced", place),
        PreFault::BadMacroUse(place) => placed(alloc, "BadMacroUse", place),
        PreFault::MacroLoop(name, place) => {
            let word = named(alloc, "MacroLoop", name.as_slice())?;
            placed(alloc, word.as_str(), place)
        }
        PreFault::TooDeep(place) => placed(alloc, "TooDeep", place),
    }
}

// The text behind a `=`, or the fault.
fn text_shown(alloc: Global, answer: Result<Text, Stopped>) -> Result<String, AllocError> {
    match answer {
        Err(stop) => fault_shown(alloc, stop.fault),
        Ok(text) => {
            let bytes = String::from_utf8_lossy(alloc, text.bytes.as_slice())?;
            format!(in alloc; "={bytes}")
        }
    }
}

// The expansion of `a.v` with these bytes.
fn shown(alloc: Global, bytes: &[u8]) -> Result<String, Fail> {
    let mut shelf = shelf_of(alloc, bytes, &[])?;
    let names = names_of(alloc, &["a.v"])?;
    Ok(text_shown(alloc, expand(alloc, &mut shelf, &names))?)
}

// The first row that isn't expanded as it should be, with what came instead.
fn first_wrong(alloc: Global, rows: &[(&[u8], &str)]) -> Result<Option<String>, Fail> {
    for (bytes, want) in rows {
        let got = shown(alloc, *bytes)?;
        if got.as_str() != *want {
            return Ok(Some(format!(in alloc; "{want} / {got}")?));
        }
    }
    Ok(None)
}
