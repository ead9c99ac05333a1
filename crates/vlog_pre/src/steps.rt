//! One step of the expansion.
ghost use Rattle.std.specs.Prelude.{◌≡◌, ◌<◌, [], ◌≤◌, ◌+◌, ◌*◌, length, OnOk, string_bytes};
ghost use Rattle.vlog_items.specs.declared.looking.Ahead.TheVariants.{Nothing};
ghost use Rattle.vlog_items.specs.Items.{ahead_of};
ghost use Rattle.vlog_pre.specs.Levels.{innermost};
ghost use Rattle.vlog_pre.specs.Known.{state_of, IsStep, Proceeds, put};
ghost use Rattle.vlog_pre.specs.Expansion.{left, closed, given, taken, passed_over, next};

use crate::dispatch::{direct, pass_by};
use crate::fault::PreFault;
use crate::known::{Known, name_of};
use crate::levels::Level;
use crate::outcome::Outcome;
use rdc_outside::{Place, Seq};
use std::alloc::Global;
use vlog_items::{Ahead, Reader};

// Puts a byte out.
fn put(
    alloc: Global,
    known: &mut Known,
    b: u8,
    place: Place,
    reader: &Reader,
) -> Result<Outcome, PreFault>
    ensures step { IsStep result (state_of known.new) reader.now (put (state_of known.old) b place reader.now.items) }
    ensures nearer { Proceeds result (state_of known.old) reader.now.items (state_of known.new) reader.now.items }
{
    if known.bytes.len() >= 16_777_215 {
        return Err(PreFault::TooLong(name_of(alloc, known, place)?));
    }
    known.bytes.push(b)?;
    known.places.push(place)?;
    known.mode = known.mode.after(b);
    Ok(Outcome::GoesOn)
}

// A byte of a part that is taken.
fn take(
    alloc: Global,
    known: &mut Known,
    b: u8,
    place: Place,
    reader: &mut Reader,
) -> Result<Outcome, PreFault>
    requires { known.old.count < 1048576 }
    ensures step { IsStep result (state_of known.new) reader.new (taken (state_of known.old) b place reader.old.names reader.old.items) }
    ensures nearer { Proceeds result (state_of known.old) reader.old.items (state_of known.new) reader.new.items }
{
    if b == b'`' && known.mode.is_plain() {
        direct(alloc, known, place, reader)
    } else {
        put(alloc, known, b, place, reader)
    }
}

// A byte of a part that is not taken.
fn pass_over(
    known: &mut Known,
    b: u8,
    place: Place,
    reader: &mut Reader,
) -> Result<Outcome, PreFault>
    ensures step { IsStep result (state_of known.new) reader.new (passed_over (state_of known.old) b place reader.old.items) }
    ensures nearer { Proceeds result (state_of known.old) reader.old.items (state_of known.new) reader.new.items }
{
    if b == b'`' && known.skipped.is_plain() {
        pass_by(known, place, reader)
    } else {
        known.skipped = known.skipped.after(b);
        Ok(Outcome::GoesOn)
    }
}

// A file is closed.
fn leave(
    alloc: Global,
    known: &mut Known,
    place: Place,
    reader: &Reader,
) -> Result<Outcome, PreFault>
    ensures step { IsStep result (state_of known.new) reader.now (left (state_of known.old) place reader.now.items) }
    ensures nearer { Proceeds result (state_of known.old) reader.now.items (state_of known.new) reader.now.items }
{
    match reader.ahead() {
        Ahead::Coming => put(alloc, known, b'\n', place, reader),
        Ahead::Read(_, _) => Ok(Outcome::GoesOn),
        Ahead::Ended(_) => Ok(Outcome::GoesOn),
        Ahead::Nothing => Ok(Outcome::GoesOn),
    }
}

// The end of a file.
fn close(
    alloc: Global,
    known: &mut Known,
    place: Place,
    reader: &Reader,
) -> Result<Outcome, PreFault>
    ensures step { IsStep result (state_of known.new) reader.now (closed (innermost known.old.levels) (state_of known.old) place reader.now.items) }
    ensures nearer { Proceeds result (state_of known.old) reader.now.items (state_of known.new) reader.now.items }
{
    match known.levels.top() {
        None => Ok(Outcome::GoesOn),
        Some(Level::Conditional(opening)) => Err(PreFault::Unbalanced(opening.place)),
        Some(Level::File) => {
            known.levels.leave();
            known.depth = known.depth.saturating_sub(1);
            known.end = place;
            leave(alloc, known, place, reader)
        }
    }
}

// A file that was given.
fn give(known: &mut Known, name: String, reader: &Reader) -> Result<Outcome, PreFault>
    requires count { known.old.count < 1048576 }
    requires names { reader.now.names ≡ [] }
    ensures step { IsStep result (state_of known.new) reader.now (given (state_of known.old) (string_bytes name) reader.now.items) }
    ensures nearer { Proceeds result (state_of known.old) reader.now.items (state_of known.new) reader.now.items }
{
    if known.count + 1 == 1_048_576 {
        return Err(PreFault::TooLong(Seq::from_vec(name.into_bytes())));
    }
    known.levels.enter()?;
    known.count += 1;
    known.depth = 1;
    Ok(Outcome::Loads(name))
}

/// One step, where something is left.
pub(crate) fn step(
    alloc: Global,
    known: &mut Known,
    reader: &mut Reader,
) -> Result<Outcome, PreFault>
    requires count { known.old.count < 1048576 }
    requires some { ahead_of reader.old.items ≡ Nothing → ⊥ }
    ensures step { IsStep result (state_of known.new) reader.new (next (state_of known.old) reader.old.items) }
    ensures sooner { OnOk result (length reader.new.items + 1 + 16777300 * known.old.count ≤ length reader.old.items + 16777300 * known.new.count) }
    ensures nearer { Proceeds result (state_of known.old) reader.old.items (state_of known.new) reader.new.items }
{
    reader.settle();
    match reader.ahead() {
        Ahead::Nothing => Ok(Outcome::GoesOn),
        Ahead::Coming => match reader.take_name() {
            None => Ok(Outcome::GoesOn),
            Some(name) => give(known, name, reader),
        },
        Ahead::Ended(place) => {
            reader.advance()?;
            close(alloc, known, place, reader)
        }
        Ahead::Read(b, place) => {
            reader.advance()?;
            if known.levels.taken() {
                take(alloc, known, b, place, reader)
            } else {
                pass_over(known, b, place, reader)
            }
        }
    }
}
