//! Plain bytes, put out one after another.
ghost use Rattle.std.specs.Prelude.{◌≡◌, true, OnOk, IfErr};
ghost use Rattle.vlog_pre.specs.declared.fault.PreFault.TheVariants.{Memory};
ghost use Rattle.vlog_pre.specs.Levels.{is_taken};
ghost use Rattle.vlog_pre.specs.Known.{state_of, with_byte};
ghost use Rattle.vlog_pre.specs.Turns.{IsCopied};

use crate::fault::PreFault;
use crate::known::Known;
use rdc_outside::Place;
use std::alloc::AllocError;
use vlog_items::{Ahead, Reader};

// Puts out a byte.
#[inline]
fn add(known: &mut Known, b: u8, place: Place) -> Result<(), AllocError>
    ensures known { OnOk result (state_of known.new ≡ with_byte (state_of known.old) b place) }
    ensures levels { OnOk result (known.new.levels ≡ known.old.levels) }
{
    known.bytes.push(b)?;
    known.places.push(place)?;
    known.mode = known.mode.after(b);
    Ok(())
}

// Puts out the bytes in front that are no backtick, where the part is taken.
fn copy_taken(known: &mut Known, reader: &mut Reader) -> Result<(), PreFault>
    requires { is_taken known.old.levels ≡ true }
    ensures copied { OnOk result (IsCopied (state_of known.old) reader.old.items (state_of known.new) reader.new.items) }
    ensures err { IfErr result (λ fault. fault ≡ Memory) }
{
    'bytes: while let Ahead::Read(b, place) = reader.ahead() {
        if b == b'`' || known.bytes.len() >= 16_777_215 {
            return Ok(());
        }
        reader.advance()?;
        add(known, b, place)?;
    }
    Ok(())
}

/// Puts out the bytes in front that are no backtick, if the part is taken. These are as many steps, done at once.
pub(crate) fn copy(known: &mut Known, reader: &mut Reader) -> Result<(), PreFault>
    ensures copied { OnOk result (IsCopied (state_of known.old) reader.old.items (state_of known.new) reader.new.items) }
    ensures err { IfErr result (λ fault. fault ≡ Memory) }
{
    if known.levels.taken() {
        copy_taken(known, reader)
    } else {
        Ok(())
    }
}
