//! Assignments and bindings.
ghost use Rattle.std.specs.Prelude.{◌≡◌, ◌++◌, OnOk};
ghost use Rattle.elab_bits.specs.Parts.{driver_drives, driver_reads};

use crate::readers::put_reads;
use crate::targets::{put_target_reads, put_targets};
use crate::touch::{Touch, put};
use design_form::{Design, Driver};
use std::alloc::{AllocError, Global};

/// What an assignment or a binding drives, behind what is there: the bits of its target, at its place.
///
/// # Errors
/// Want of memory.
pub fn drives_of_driver(
    alloc: Global,
    design: &Design,
    driver: &Driver,
    touches: &mut Vec<Touch>,
) -> Result<(), AllocError>
    ensures { OnOk result (touches.new.items ≡ touches.old.items ++ driver_drives design.now.signals driver.now) }
{
    let mut bits = Vec::new(alloc);
    put_targets(alloc, design, &driver.target, &mut bits)?;
    put(touches, driver.place, &bits)
}

/// What an assignment or a binding reads, behind what is there: in the indices of its target, and in its value.
///
/// # Errors
/// Want of memory.
#[tactic(auto, using(std::proofs::lemmas::List::append_assoc))]
pub fn reads_of_driver(
    alloc: Global,
    design: &Design,
    driver: &Driver,
    touches: &mut Vec<Touch>,
) -> Result<(), AllocError>
    ensures { OnOk result (touches.new.items ≡ touches.old.items ++ driver_reads design.now.signals driver.now) }
{
    put_target_reads(alloc, design, &driver.target, touches)?;
    put_reads(alloc, design, &driver.value, touches)
}
