//! Touches.
ghost use Rattle.std.specs.Prelude.{◌≡◌, ◌++◌, OnOk};
ghost use Rattle.elab_bits.specs.Touches.{touched};

use rdc_outside::Place;
use std::alloc::AllocError;

/// A bit that is driven or read, and where.
#[derive(Clone, Copy, Debug, PartialEq, Eq)]
pub struct Touch {
    /// The bit's number in the design.
    pub bit: u32,
    pub place: Place,
}

/// Bits at one place, behind what is there.
pub(crate) fn put(touches: &mut Vec<Touch>, place: Place, bits: &[u32]) -> Result<(), AllocError>
    ensures { OnOk result (touches.new.items ≡ touches.old.items ++ touched place bits.now) }
{
    for bit in bits {
        touches.push(Touch { bit: *bit, place })?;
    }
    Ok(())
}
