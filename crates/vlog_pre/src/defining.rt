//! `define` and `undef`.
ghost use Rattle.std.specs.Prelude.{◌≡◌, OnOk, []};
ghost use Rattle.vlog_pre.specs.Known.{state_of, IsStep, Proceeds};
ghost use Rattle.vlog_pre.specs.Directives.{with_text, named, defined, forgotten};

use crate::fault::PreFault;
use crate::kinds::{free, wanted_by};
use crate::known::Known;
use crate::macros::Macro;
use crate::outcome::Outcome;
use crate::parameters::parameters;
use crate::texts::text;
use crate::words::{begins, names, word};
use rdc_outside::{Place, Seq};
use std::alloc::Global;
use vlog_items::{Class, Reader};

// Reads the text of a macro, and defines it.
fn define_text(
    alloc: Global,
    known: &mut Known,
    name: Vec<u8>,
    parameters: Seq<Seq<u8>>,
    reader: &mut Reader,
) -> Result<Outcome, PreFault>
    ensures step { IsStep result (state_of known.new) reader.new (with_text (state_of known.old) name.items parameters reader.old.items) }
    ensures nearer { Proceeds result (state_of known.old) reader.old.items (state_of known.new) reader.new.items }
{
    reader.skip(Class::LineBlank)?;
    let text = text(alloc, reader)?;
    known.macros.set(name, Macro { parameters, text })?;
    Ok(Outcome::GoesOn)
}

// Reads the parameters and the text of a macro.
fn define_named(
    alloc: Global,
    known: &mut Known,
    place: Place,
    name: Vec<u8>,
    reader: &mut Reader,
) -> Result<Outcome, PreFault>
    ensures step { IsStep result (state_of known.new) reader.new (named (state_of known.old) place name.items reader.old.items) }
    ensures nearer { Proceeds result (state_of known.old) reader.old.items (state_of known.new) reader.new.items }
{
    if !begins(reader, b'(') {
        return define_text(alloc, known, name, Seq::new(alloc), reader);
    }
    reader.advance()?;
    match parameters(alloc, reader)? {
        None => Err(PreFault::BadMacroUse(place)),
        Some(parameters) => define_text(alloc, known, name, parameters, reader),
    }
}

/// `define`, whose name was read.
pub(crate) fn define(
    alloc: Global,
    known: &mut Known,
    place: Place,
    reader: &mut Reader,
) -> Result<Outcome, PreFault>
    ensures step { IsStep result (state_of known.new) reader.new (defined (state_of known.old) place reader.old.items) }
    ensures nearer { Proceeds result (state_of known.old) reader.old.items (state_of known.new) reader.new.items }
{
    let word = word(reader)?;
    if names(&word) && free(wanted_by(&word)) {
        define_named(alloc, known, place, word, reader)
    } else {
        Err(PreFault::BadMacroUse(place))
    }
}

/// `undef`, whose name was read.
pub(crate) fn undefine(
    known: &mut Known,
    place: Place,
    reader: &mut Reader,
) -> Result<Outcome, PreFault>
    ensures step { IsStep result (state_of known.new) reader.new (forgotten (state_of known.old) place reader.old.items) }
    ensures nearer { Proceeds result (state_of known.old) reader.old.items (state_of known.new) reader.new.items }
{
    let word = word(reader)?;
    if !names(&word) {
        return Err(PreFault::BadMacroUse(place));
    }
    known.macros.remove(&word);
    Ok(Outcome::GoesOn)
}
