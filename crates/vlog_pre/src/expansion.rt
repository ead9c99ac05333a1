//! The expansion of files.
ghost use Rattle.std.specs.Prelude.{◌≡◌, ◌≤◌, ◌<◌, ◌+◌, ◌*◌, [], length, map, string_bytes, IfOk, IfSome, IfErr, OnOk, MatchBool, MatchResult};
ghost use Rattle.vlog_items.specs.declared.looking.Ahead.TheVariants.{Nothing};
ghost use Rattle.vlog_items.specs.Items.{ahead_of};
ghost use Rattle.vlog_pre.specs.declared.fault.PreFault.TheVariants.{Memory};
ghost use Rattle.vlog_pre.specs.Known.{state_of};
ghost use Rattle.vlog_pre.specs.Expansion.{first_state};
ghost use Rattle.vlog_pre.specs.Answer.{IsText, IsAnswer, CountsFault};
ghost use Rattle.vlog_pre.specs.Turns.{IsTurn};

use crate::copying::copy;
use crate::fault::{PreFault, Stopped};
use crate::known::Known;
use crate::levels::Levels;
use crate::loading::load;
use crate::macros::Macros;
use crate::outcome::Outcome;
use crate::steps::step;
use rdc_outside::{Place, Seq, Shelf, Text};
use std::alloc::Global;
use vlog_items::{Ahead, Mode, Reader};

// What is known before anything is read.
fn first_known(alloc: Global) -> Known
    ensures { state_of result ≡ first_state }
{
    Known {
        macros: Macros::new(alloc),
        levels: Levels::new(alloc),
        mode: Mode::Plain,
        skipped: Mode::Plain,
        count: 0,
        depth: 0,
        bytes: Seq::new(alloc),
        places: Seq::new(alloc),
        files: Seq::new(alloc),
        end: Place {
            file: 0,
            line: 1,
            col: 1,
        },
    }
}

// Whether nothing is left.
fn is_done(reader: &Reader) -> bool
    ensures { MatchBool result (reader.now.items ≡ []) (ahead_of reader.now.items ≡ Nothing → ⊥) }
{
    match reader.ahead() {
        Ahead::Nothing => true,
        Ahead::Read(_, _) => false,
        Ahead::Ended(_) => false,
        Ahead::Coming => false,
    }
}

// Memory is wanted.
fn wanting(alloc: Global) -> Stopped
    ensures { result.fault ≡ Memory }
{
    Stopped {
        fault: PreFault::Memory,
        files: Seq::new(alloc),
    }
}

// The text that is known at the end.
fn text_of(alloc: Global, mut known: Known, files: Seq<String>) -> Result<Text, Stopped>
    requires named { map string_bytes files ≡ known.files }
    requires even { length known.places ≡ length known.bytes }
    requires small { length known.bytes < 16777216 }
    ensures even { IfOk result (λ text. length text.places ≡ length text.bytes + 1) }
    ensures small { IfOk result (λ text. length text.bytes < 16777216) }
    ensures value { MatchResult result (IsText (state_of known)) (λ stop. stop.fault ≡ Memory) }
{
    let Ok(()) = known.places.push(known.end) else {
        return Err(wanting(alloc));
    };
    Ok(Text {
        bytes: known.bytes,
        places: known.places,
        files,
    })
}

// One step, and the load that it asks for.
fn turn<S: Shelf>(
    alloc: Global,
    shelf: &mut S,
    known: &mut Known,
    reader: &mut Reader,
    files: &mut Seq<String>,
) -> Result<(), PreFault>
    requires count { known.old.count < 1048576 }
    requires some { ahead_of reader.old.items ≡ Nothing → ⊥ }
    requires few { length known.old.files ≤ known.old.count }
    requires named { map string_bytes files.old ≡ known.old.files }
    requires small { length known.old.bytes < 16777216 }
    ensures value { IsTurn (S.files shelf.old) (S.calls shelf.old) (state_of known.old) reader.old.items result (state_of known.new) (map string_bytes files.new) reader.new.items (S.calls shelf.new) }
    ensures counted { IfErr result (λ fault. CountsFault fault (S.absences shelf.old) (S.absences shelf.new) (S.faults shelf.old) (S.faults shelf.new)) }
    ensures same { S.files shelf.new ≡ S.files shelf.old }
    ensures faults { S.faults shelf.old ≤ S.faults shelf.new }
    ensures absences { S.absences shelf.old ≤ S.absences shelf.new }
    ensures excesses { S.excesses shelf.old ≤ S.excesses shelf.new }
    ensures sooner { OnOk result (length reader.new.items + 1 + 16777300 * known.old.count ≤ length reader.old.items + 16777300 * known.new.count) }
    ensures bounded { OnOk result (known.new.count < 1048576) }
    ensures few { OnOk result (length known.new.files ≤ known.new.count) }
    ensures small { OnOk result (length known.new.bytes < 16777216) }
    ensures even { OnOk result (length known.new.places + length known.old.bytes ≡ length known.old.places + length known.new.bytes) }
    ensures named { OnOk result (map string_bytes files.new ≡ known.new.files) }
{
    match step(alloc, known, reader) {
        Err(fault) => Err(fault),
        Ok(Outcome::GoesOn) => Ok(()),
        Ok(Outcome::Loads(name)) => match load(alloc, shelf, known, reader, files, name) {
            Err(fault) => Err(fault),
            Ok(()) => Ok(()),
        },
    }
}

// Turn by turn, until nothing is left.
fn run<S: Shelf>(
    alloc: Global,
    shelf: &mut S,
    known: &mut Known,
    reader: &mut Reader,
    files: &mut Seq<String>,
) -> Result<(), PreFault>
    requires count { known.old.count < 1048576 }
    requires few { length known.old.files ≤ known.old.count }
    requires named { map string_bytes files.old ≡ known.old.files }
    requires small { length known.old.bytes < 16777216 }
    ensures value { IsTurn (S.files shelf.old) (S.calls shelf.old) (state_of known.old) reader.old.items result (state_of known.new) (map string_bytes files.new) reader.new.items (S.calls shelf.new) }
    ensures whole { OnOk result (reader.new.items ≡ []) }
    ensures small { OnOk result (length known.new.bytes < 16777216) }
    ensures even { OnOk result (length known.new.places + length known.old.bytes ≡ length known.old.places + length known.new.bytes) }
    ensures named { OnOk result (map string_bytes files.new ≡ known.new.files) }
    ensures counted { IfErr result (λ fault. CountsFault fault (S.absences shelf.old) (S.absences shelf.new) (S.faults shelf.old) (S.faults shelf.new)) }
    ensures same { S.files shelf.new ≡ S.files shelf.old }
    ensures faults { S.faults shelf.old ≤ S.faults shelf.new }
    ensures absences { S.absences shelf.old ≤ S.absences shelf.new }
    ensures excesses { S.excesses shelf.old ≤ S.excesses shelf.new }
{
    'turns: loop {
        let Ok(()) = copy(known, reader) else {
            return Err(PreFault::Memory);
        };
        if is_done(reader) {
            return Ok(());
        }
        match turn(alloc, shelf, known, reader, files) {
            Err(fault) => return Err(fault),
            Ok(()) => {}
        }
    }
}

/// The expansion of these files, one after another, with a line feed between two. Files are loaded in the order in which
/// they are met. Costs one pass over what is read, and a walk over the macros in use at each use.
pub fn expand<S: Shelf>(alloc: Global, shelf: &mut S, names: &[String]) -> Result<Text, Stopped>
    // The text, or the first fault and the names of the files so far; and the loads in their order.
    ensures value { IsAnswer (S.files shelf.old) (map string_bytes names.now) (S.calls shelf.old) (S.calls shelf.new) result }

    // Each byte of a text has its place, and so has its end. The text is shorter than 16 MiB.
    ensures placed { IfOk result (λ text. length text.places ≡ length text.bytes + 1) }
    ensures small { IfOk result (λ text. length text.bytes < 16777216) }

    // A missing file and a failed load are counted, whether the files are told or not.
    ensures counted { IfErr result (λ stop. CountsFault stop.fault (S.absences shelf.old) (S.absences shelf.new) (S.faults shelf.old) (S.faults shelf.new)) }

    // No file changes, and no count falls.
    ensures same { S.files shelf.new ≡ S.files shelf.old }
    ensures faults { S.faults shelf.old ≤ S.faults shelf.new }
    ensures absences { S.absences shelf.old ≤ S.absences shelf.new }
    ensures excesses { S.excesses shelf.old ≤ S.excesses shelf.new }
{
    let Ok(mut reader) = Reader::new(alloc, names) else {
        return Err(wanting(alloc));
    };
    let mut known = first_known(alloc);
    let mut files = Seq::new(alloc);
    match run(alloc, shelf, &mut known, &mut reader, &mut files) {
        Err(fault) => Err(Stopped { fault, files }),
        Ok(()) => text_of(alloc, known, files),
    }
}
