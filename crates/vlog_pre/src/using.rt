//! Uses of macros.
ghost use Rattle.std.specs.Prelude.{◌≡◌, ◌<◌, ◌+◌, OnOk, option_copied};
ghost use Rattle.vlog_pre.specs.Meanings.{meanings_of};
ghost use Rattle.vlog_pre.specs.Known.{state_of, IsStep, Proceeds, counted};
ghost use Rattle.vlog_pre.specs.Uses.{replaced_by, with_arguments, arguments_of, replaced, applied, used};

use crate::arguments::arguments;
use crate::fault::PreFault;
use crate::known::{Known, name_of};
use crate::macros::Macro;
use crate::outcome::Outcome;
use crate::replacing::replacement;
use rdc_outside::{Place, Seq};
use std::alloc::Global;
use vlog_items::Reader;

// Puts a replacement in front of what follows.
fn put(
    alloc: Global,
    known: &Known,
    place: Place,
    name: Seq<u8>,
    bytes: Vec<u8>,
    reader: &mut Reader,
) -> Result<Outcome, PreFault>
    requires { known.now.count + 1 < 1048576 }
    ensures step { IsStep result (counted (state_of known.now)) reader.new (replaced_by (counted (state_of known.now)) place reader.old.names name bytes.items reader.old.items) }
    ensures nearer { Proceeds result (state_of known.now) reader.old.items (counted (state_of known.now)) reader.new.items }
{
    if bytes.len() >= 16_777_216 {
        return Err(PreFault::TooLong(name_of(alloc, known, place)?));
    }
    reader.put_use(name, bytes, place)?;
    Ok(Outcome::GoesOn)
}

// Reads the arguments of a macro with parameters, and puts its replacement in front of what follows.
fn fill(
    alloc: Global,
    known: &Known,
    place: Place,
    name: Seq<u8>,
    meaning: &Macro,
    reader: &mut Reader,
) -> Result<Outcome, PreFault>
    requires { known.now.count + 1 < 1048576 }
    ensures step { IsStep result (counted (state_of known.now)) reader.new (with_arguments (counted (state_of known.now)) place reader.old.names name meaning.now (arguments_of reader.old.items)) }
    ensures nearer { Proceeds result (state_of known.now) reader.old.items (counted (state_of known.now)) reader.new.items }
{
    let Some(arguments) = arguments(alloc, reader)? else {
        return Err(PreFault::BadMacroUse(place));
    };
    if arguments.len() != meaning.parameters.len() {
        return Err(PreFault::BadMacroUse(place));
    }
    let parameters = meaning.parameters.as_slice();
    match replacement(
        alloc,
        parameters,
        arguments.as_slice(),
        meaning.text.as_slice(),
    )? {
        None => Err(PreFault::TooLong(name_of(alloc, known, place)?)),
        Some(bytes) => put(alloc, known, place, name, bytes, reader),
    }
}

// Replaces the use of a macro.
fn replace(
    alloc: Global,
    known: &Known,
    place: Place,
    name: Seq<u8>,
    meaning: &Macro,
    reader: &mut Reader,
) -> Result<Outcome, PreFault>
    requires { known.now.count + 1 < 1048576 }
    ensures step { IsStep result (counted (state_of known.now)) reader.new (replaced (counted (state_of known.now)) place reader.old.names name meaning.now reader.old.items) }
    ensures nearer { Proceeds result (state_of known.now) reader.old.items (counted (state_of known.now)) reader.new.items }
{
    if meaning.parameters.len() == 0 {
        let bytes = Vec::from_slice(alloc, meaning.text.as_slice())?;
        put(alloc, known, place, name, bytes, reader)
    } else {
        fill(alloc, known, place, name, meaning, reader)
    }
}

// Counts the use of a macro, and replaces it.
fn apply(
    alloc: Global,
    known: &Known,
    place: Place,
    name: Seq<u8>,
    meaning: &Macro,
    reader: &mut Reader,
) -> Result<Outcome, PreFault>
    requires { known.now.count < 1048576 }
    ensures step { IsStep result (counted (state_of known.now)) reader.new (applied (state_of known.now) place reader.old.names name meaning.now reader.old.items) }
    ensures nearer { Proceeds result (state_of known.now) reader.old.items (counted (state_of known.now)) reader.new.items }
{
    if known.count + 1 == 1_048_576 {
        return Err(PreFault::TooLong(name_of(alloc, known, place)?));
    }
    if reader.is_within(name.as_slice()) {
        return Err(PreFault::MacroLoop(name, place));
    }
    replace(alloc, known, place, name, meaning, reader)
}

/// A name that is no directive's.
pub(crate) fn use_macro(
    alloc: Global,
    known: &mut Known,
    place: Place,
    name: Vec<u8>,
    reader: &mut Reader,
) -> Result<Outcome, PreFault>
    requires { known.old.count < 1048576 }
    ensures step { IsStep result (state_of known.new) reader.new (used (state_of known.old) place reader.old.names name.items (meanings_of known.old.macros name.items) reader.old.items) }
    ensures nearer { Proceeds result (state_of known.old) reader.old.items (state_of known.new) reader.new.items }
{
    let Some(meaning) = known.macros.get(&name) else {
        return Err(PreFault::UnknownDirective(place));
    };
    let outcome = apply(alloc, known, place, Seq::from_vec(name), meaning, reader)?;
    known.count += 1;
    Ok(outcome)
}
