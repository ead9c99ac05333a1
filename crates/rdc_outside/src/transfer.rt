//! Reading a whole file and writing one, in as many calls as the system needs, and writing some of a piece.
ghost use Rattle.std.specs.Prelude.{◌≡◌, ◌≢◌, ◌+◌, ◌++◌, ◌<◌, ◌≤◌, Some, Err, length, take, vec_len, IfOk, IfSome, OnOk, OnErr, IsErrOf, IsTrue};
ghost use Rattle.std.specs.Io.KnownBytes.{prepend_known, append_known, Appends, Keeps, IsAtEnd};
ghost use Rattle.rdc_outside.specs.Disk.{IsReadAs};
ghost use Rattle.rdc_outside.specs.Sink.{part_taken, IsCountOf};

use crate::{LoadFault, SaveFault, SinkFault};
use std::alloc::Global;
use std::io::{ErrorKind, Read, Write};

/// How many bytes one read asks for at most.
const CHUNK: usize = 4096;

/// The bytes that are left in a file. No more than `most` and one of them are read.
pub(crate) fn read_all<F: Read>(
    alloc: Global,
    file: &mut F,
    most: u64,
) -> Result<Vec<u8>, LoadFault>
    ensures value { IfSome (F.remaining file.old) (IsReadAs most result) }
    ensures within { IfOk result (λ bytes. length bytes.items ≤ most) }

    // A file that was opened is there.
    ensures there { result ≢ Err LoadFault.Absent }
{
    let mut bytes = Vec::new(alloc);
    for _ in 0..u64::MAX {
        if read_part(file, &mut bytes, most)? {
            return Ok(bytes);
        }
    }
    Err(LoadFault::Failed)
}

// Reads the next part, and says whether there was none. A read that a signal cut short reads nothing.
fn read_part<F: Read>(file: &mut F, bytes: &mut Vec<u8>, most: u64) -> Result<bool, LoadFault>
    requires { vec_len bytes.old ≤ most }
    ensures whole { OnOk result (IfSome (F.remaining file.old) (λ left.
        prepend_known bytes.new.items (F.remaining file.new) ≡ Some (bytes.old.items ++ left))) }
    ensures end { IfOk result (λ ended. IsTrue ended → IsAtEnd (F.remaining file.new)) }
    ensures within { OnOk result (vec_len bytes.new ≤ most) }
    ensures too_big { IsErrOf result LoadFault.TooBig → IfSome (F.remaining file.old) (λ left.
        most < length bytes.old.items + length left) }
    ensures there { result ≢ Err LoadFault.Absent }
{
    let mut chunk = [0u8; CHUNK];
    let left = most - bytes.len() as u64;
    let asked = if left < CHUNK as u64 {
        left as usize + 1
    } else {
        CHUNK
    };
    match file.read(&mut chunk[..asked]) {
        Ok(0) => Ok(true),
        Ok(count) if count as u64 > left => Err(LoadFault::TooBig),
        Ok(count) => {
            bytes.extend_from_slice(&chunk[..count])?;
            Ok(false)
        }
        Err(error) if error.kind() == ErrorKind::Interrupted => Ok(false),
        Err(_) => Err(LoadFault::Failed),
    }
}

/// Writes all the bytes to a file. It takes no memory.
pub(crate) fn write_all<F: Write>(file: &mut F, bytes: &[u8]) -> Result<(), SaveFault>
    ensures { OnOk result (Appends (F.contents file.old) (F.contents file.new) bytes.now) }
{
    let mut rest = bytes;
    for _ in 0..u64::MAX {
        if rest.is_empty() {
            return Ok(());
        }
        rest = write_part(file, rest)?;
    }
    Err(SaveFault::Failed)
}

// Writes some of the bytes, and gives those that are left. A write that a signal cut short writes nothing.
fn write_part<'a, F: Write>(file: &mut F, bytes: &'a [u8]) -> Result<&'a [u8], SaveFault>
    ensures { IfOk result (λ rest. IfSome (F.contents file.old) (λ written.
        append_known (F.contents file.new) rest.now ≡ Some (written ++ bytes.now))) }
{
    match file.write(bytes) {
        Ok(0) => Err(SaveFault::Failed),
        Ok(count) => {
            let (_, rest) = bytes.split_at(count);
            Ok(rest)
        }
        Err(error) if error.kind() == ErrorKind::Interrupted => Ok(bytes),
        Err(_) => Err(SaveFault::Failed),
    }
}

/// Writes some of a piece, and answers how much. A write that a signal cut short is tried again.
pub(crate) fn write_some<F: Write>(file: &mut F, piece: &[u8]) -> Result<usize, SinkFault>
    ensures value { Appends (F.contents file.old) (F.contents file.new) (part_taken result piece.now) }
    ensures count { IfOk result (λ count. IsCountOf count piece.now) }
{
    for _ in 0..u64::MAX {
        match file.write(piece) {
            Ok(count) if 0 < count || piece.is_empty() => return Ok(count),
            Ok(_) => return Err(SinkFault::Failed),
            Err(error) if error.kind() == ErrorKind::Interrupted => {}
            Err(_) => return Err(SinkFault::Failed),
        }
    }
    Err(SinkFault::Failed)
}
