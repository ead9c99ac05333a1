//! Ports of boxes and of the top.
ghost use Rattle.std.specs.Prelude.{◌≡◌, ◌++◌, codes, IfOk, OnOk};
ghost use Rattle.std.specs.List.{flat_map};
ghost use Rattle.design_form.specs.declared.parts.Side.TheVariants.{Input, Output};
ghost use Rattle.elab_bits.specs.Parts.{box_bits, is_side, outside, pin_bits, port_drives};

use crate::inputs::put_inputs;
use crate::selects::all_bits;
use crate::touch::{Touch, put};
use design_form::{BlackBox, BoxPort, Design, Side};
use rdc_outside::Place;
use std::alloc::{AllocError, Global};

/// Whether a port is of a side.
#[tactic(auto, unfolding(crate::specs::Parts::is_side))]
fn is_side(wanted: Side, side: Side) -> bool
    ensures { result ≡ is_side wanted side }
{
    match (wanted, side) {
        (Side::Input, Side::Input) => true,
        (Side::Input, Side::Output) => false,
        (Side::Output, Side::Input) => false,
        (Side::Output, Side::Output) => true,
    }
}

/// The name of the signal of a port of a box.
fn pin_name(alloc: Global, owner: &[u8], port: &[u8]) -> Result<Vec<u8>, AllocError>
    ensures { IfOk result (λ name. name.items ≡ owner.now ++ (codes "." ++ port.now)) }
{
    let mut name = Vec::from_slice(alloc, owner)?;
    name.push(b'.')?;
    name.extend_from_slice(port)?;
    Ok(name)
}

/// The bits of a port, if it is of a side.
#[tactic(auto, unfolding(crate::specs::Parts::pin_bits))]
fn put_pin(
    alloc: Global,
    design: &Design,
    side: Side,
    owner: &BlackBox,
    port: &BoxPort,
    touches: &mut Vec<Touch>,
) -> Result<(), AllocError>
    ensures { OnOk result (touches.new.items ≡ touches.old.items ++ pin_bits design.now.signals side owner.now port.now) }
{
    if !is_side(side, port.side) {
        return Ok(());
    }
    let name = pin_name(alloc, owner.name.as_slice(), port.name.as_slice())?;
    put(touches, owner.place, all_bits(design, &name))
}

/// The bits of a box's ports of a side, behind what is there.
#[tactic(auto, unfolding(crate::specs::Parts::box_bits))]
fn put_box(
    alloc: Global,
    design: &Design,
    side: Side,
    owner: &BlackBox,
    touches: &mut Vec<Touch>,
) -> Result<(), AllocError>
    ensures { OnOk result (touches.new.items ≡ touches.old.items ++ box_bits design.now.signals side owner.now) }
{
    let ports = owner.ports.as_slice();
    for port in ports {
        put_pin(alloc, design, side, owner, port, touches)?;
    }
    Ok(())
}

/// The same of some boxes.
fn put_boxes(
    alloc: Global,
    design: &Design,
    side: Side,
    boxes: &[BlackBox],
    touches: &mut Vec<Touch>,
) -> Result<(), AllocError>
    ensures { OnOk result (touches.new.items ≡ touches.old.items ++ flat_map (box_bits design.now.signals side) boxes.now) }
{
    for owner in boxes {
        put_box(alloc, design, side, owner, touches)?;
    }
    Ok(())
}

/// What the boxes of a design drive, behind what is there: the bits of their outputs, each at its box's place.
///
/// # Errors
/// Want of memory.
pub fn drives_of_boxes(
    alloc: Global,
    design: &Design,
    touches: &mut Vec<Touch>,
) -> Result<(), AllocError>
    ensures { OnOk result (touches.new.items ≡ touches.old.items ++ flat_map (box_bits design.now.signals Output) design.now.boxes) }
{
    let boxes = design.parts().boxes.as_slice();
    put_boxes(alloc, design, Side::Output, boxes, touches)
}

/// What the boxes of a design read, behind what is there: the bits of their inputs, each at its box's place.
///
/// # Errors
/// Want of memory.
pub fn reads_of_boxes(
    alloc: Global,
    design: &Design,
    touches: &mut Vec<Touch>,
) -> Result<(), AllocError>
    ensures { OnOk result (touches.new.items ≡ touches.old.items ++ flat_map (box_bits design.now.signals Input) design.now.boxes) }
{
    let boxes = design.parts().boxes.as_slice();
    put_boxes(alloc, design, Side::Input, boxes, touches)
}

/// A place before every text.
fn outside() -> Place
    ensures { result ≡ outside }
{
    Place {
        file: 0,
        line: 0,
        col: 0,
    }
}

/// The bits of the top's input ports, which are driven from outside, behind what is there. Their place comes before those of
/// all texts: where something else drives such a bit, that is its second driver.
///
/// # Errors
/// Want of memory.
pub fn drives_of_ports(
    alloc: Global,
    design: &Design,
    touches: &mut Vec<Touch>,
) -> Result<(), AllocError>
    ensures { OnOk result (touches.new.items ≡ touches.old.items ++ port_drives design.now.signals design.now.ports) }
{
    let mut bits = Vec::new(alloc);
    put_inputs(design, design.parts().ports.as_slice(), &mut bits)?;
    put(touches, outside(), &bits)
}
