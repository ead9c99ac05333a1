//! Conditionals.
ghost use Rattle.std.specs.Prelude.{◌≡◌, OnOk, is_some, true, false};
ghost use Rattle.vlog_pre.specs.Known.{state_of, IsStep, Proceeds};
ghost use Rattle.vlog_pre.specs.Directives.{begun, tested, conditional};

use crate::fault::PreFault;
use crate::kinds::Branch;
use crate::known::Known;
use crate::outcome::Outcome;
use crate::words::{names, word};
use rdc_outside::Place;
use vlog_items::{Mode, Reader};

// `ifdef` and `ifndef`.
fn begin(
    known: &mut Known,
    place: Place,
    wanted: bool,
    reader: &mut Reader,
) -> Result<Outcome, PreFault>
    ensures step { IsStep result (state_of known.new) reader.new (begun (state_of known.old) place wanted reader.old.items) }
    ensures nearer { Proceeds result (state_of known.old) reader.old.items (state_of known.new) reader.new.items }
{
    let word = word(reader)?;
    if !names(&word) {
        return Err(PreFault::BadMacroUse(place));
    }
    let found = known.macros.get(&word).is_some();
    let met = if wanted { found } else { !found };
    known.levels.begin(place, met)?;
    known.skipped = Mode::Plain;
    Ok(Outcome::GoesOn)
}

// `elsif`.
fn test(known: &mut Known, place: Place, reader: &mut Reader) -> Result<Outcome, PreFault>
    ensures step { IsStep result (state_of known.new) reader.new (tested (state_of known.old) place reader.old.items) }
    ensures nearer { Proceeds result (state_of known.old) reader.old.items (state_of known.new) reader.new.items }
{
    if !known.levels.goes_on() {
        return Err(PreFault::Unbalanced(place));
    }
    let word = word(reader)?;
    if !names(&word) {
        return Err(PreFault::BadMacroUse(place));
    }
    let met = known.macros.get(&word).is_some();
    known.levels.part(met, false)?;
    known.skipped = Mode::Plain;
    Ok(Outcome::GoesOn)
}

// `else`.
fn other(known: &mut Known, place: Place, reader: &Reader) -> Result<Outcome, PreFault>
    ensures step { IsStep result (state_of known.new) reader.now (conditional Branch.Else (state_of known.old) place reader.now.items) }
    ensures nearer { Proceeds result (state_of known.old) reader.now.items (state_of known.new) reader.now.items }
{
    if !known.levels.goes_on() {
        return Err(PreFault::Unbalanced(place));
    }
    known.levels.part(true, true)?;
    known.skipped = Mode::Plain;
    Ok(Outcome::GoesOn)
}

// `endif`.
fn finish(known: &mut Known, place: Place, reader: &Reader) -> Result<Outcome, PreFault>
    ensures step { IsStep result (state_of known.new) reader.now (conditional Branch.Endif (state_of known.old) place reader.now.items) }
    ensures nearer { Proceeds result (state_of known.old) reader.now.items (state_of known.new) reader.now.items }
{
    if !known.levels.open() {
        return Err(PreFault::Unbalanced(place));
    }
    known.levels.leave();
    known.skipped = Mode::Plain;
    Ok(Outcome::GoesOn)
}

/// A directive of a conditional, whose name was read.
pub(crate) fn conditional(
    branch: Branch,
    known: &mut Known,
    place: Place,
    reader: &mut Reader,
) -> Result<Outcome, PreFault>
    ensures step { IsStep result (state_of known.new) reader.new (conditional branch (state_of known.old) place reader.old.items) }
    ensures nearer { Proceeds result (state_of known.old) reader.old.items (state_of known.new) reader.new.items }
{
    match branch {
        Branch::Ifdef => begin(known, place, true, reader),
        Branch::Ifndef => begin(known, place, false, reader),
        Branch::Elsif => test(known, place, reader),
        Branch::Else => other(known, place, reader),
        Branch::Endif => finish(known, place, reader),
    }
}
