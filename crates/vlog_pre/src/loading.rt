//! Loading one file.
ghost use Rattle.std.specs.Prelude.{◌≡◌, ◌≤◌, ◌<◌, ◌+◌, length, map, string_bytes, IfOk, IfSome, IfErr, OnOk};
ghost use Rattle.vlog_pre.specs.Known.{state_of};
ghost use Rattle.vlog_pre.specs.Turns.{IsFaultOf, IsLoaded, IsListed};
ghost use Rattle.vlog_pre.specs.Answer.{CountsFault};

use crate::fault::PreFault;
use crate::known::Known;
use rdc_outside::{LoadFault, Seq, Shelf};
use std::alloc::{AllocError, Global};
use vlog_items::Reader;

// The bytes of a name.
fn bytes_of(alloc: Global, name: &str) -> Result<Seq<u8>, AllocError>
    ensures { IfOk result (λ bytes. bytes ≡ name.now) }
{
    Ok(Seq::from_vec(Vec::from_slice(alloc, name.as_bytes())?))
}

// The fault of a load.
fn fault_of(alloc: Global, name: &str, fault: LoadFault) -> PreFault
    ensures { IsFaultOf name.now fault result }
{
    let Ok(bytes) = bytes_of(alloc, name) else {
        return PreFault::Memory;
    };
    match fault {
        LoadFault::Memory => PreFault::Memory,
        LoadFault::Absent => PreFault::Absent(bytes),
        LoadFault::TooBig => PreFault::TooLong(bytes),
        LoadFault::Failed => PreFault::Read(bytes),
    }
}

/// Loads a file, and puts it in front of what follows.
pub(crate) fn load<S: Shelf>(
    alloc: Global,
    shelf: &mut S,
    known: &mut Known,
    reader: &mut Reader,
    files: &mut Seq<String>,
    name: String,
) -> Result<(), PreFault>
    requires few { length known.old.files < 1048576 }
    requires named { map string_bytes files.old ≡ known.old.files }
    ensures value { IsLoaded (S.files shelf.old) (string_bytes name) reader.old.names (state_of known.old) reader.old.items result (state_of known.new) reader.new.items }
    ensures listed { IsListed (S.calls shelf.old) (string_bytes name) result (S.calls shelf.new) }
    ensures counted { IfErr result (λ fault. CountsFault fault (S.absences shelf.old) (S.absences shelf.new) (S.faults shelf.old) (S.faults shelf.new)) }
    ensures same { S.files shelf.new ≡ S.files shelf.old }
    ensures faults { S.faults shelf.old ≤ S.faults shelf.new }
    ensures absences { S.absences shelf.old ≤ S.absences shelf.new }
    ensures excesses { S.excesses shelf.old ≤ S.excesses shelf.new }
    ensures longer { OnOk result (length reader.new.items ≤ length reader.old.items + 16777217) }
    ensures count { OnOk result (known.new.count ≡ known.old.count) }
    ensures even { OnOk result (length known.new.places + length known.old.bytes ≡ length known.old.places + length known.new.bytes) }
    ensures same_text { OnOk result (known.new.bytes ≡ known.old.bytes) }
    ensures more { OnOk result (length known.new.files ≡ length known.old.files + 1) }
    ensures named { OnOk result (map string_bytes files.new ≡ known.new.files) }
{
    let number = known.files.len() as u32;
    match shelf.load(alloc, name.as_str(), 16_777_216) {
        Err(fault) => Err(fault_of(alloc, name.as_str(), fault)),
        Ok(bytes) => {
            known.files.push(bytes_of(alloc, name.as_str())?)?;
            files.push(name)?;
            reader.put_file(bytes, number)?;
            Ok(())
        }
    }
}
