//! The signals of a box.
ghost use Rattle.std.specs.Prelude.{◌≡◌, ◌++◌, IfOk, OnOk, map};
ghost use Rattle.elab_binds.specs.Boxes.{box_signal, with_box_signals};
ghost use Rattle.elab_scopes.specs.Tables.{drawn_of};

use crate::boxes::PortShape;
use crate::printing::printed;
use design_form::{Bounds, Signal, SignalKind};
use elab_scopes::{Drawing, Placed};
use rdc_outside::{Place, Seq};
use std::alloc::{AllocError, Global};

/// The signal of a port.
fn box_signal(
    alloc: Global,
    prefix: &[u8],
    place: Place,
    port: &PortShape,
) -> Result<Placed, AllocError>
    ensures { IfOk result (λ p. p ≡ box_signal prefix.now place port.now) }
{
    let name = Seq::from_vec(printed(alloc, prefix, port.name.as_slice())?);
    let range = Some(Bounds {
        msb: port.msb,
        lsb: port.lsb,
    });
    let signal = Signal {
        name,
        kind: SignalKind::Wire,
        signed: false,
        range,
    };
    Ok(Placed { signal, place })
}

/// The signals of ports, behind those that are there.
fn add_all(
    alloc: Global,
    signals: &mut Vec<Placed>,
    prefix: &[u8],
    ports: &[PortShape],
    place: Place,
) -> Result<(), AllocError>
    ensures { OnOk result (signals.new.items ≡ signals.old.items ++ map (box_signal prefix.now place) ports.now) }
{
    for port in ports {
        signals.push(box_signal(alloc, prefix, place, port)?)?;
    }
    Ok(())
}

/// The signals of a box, one a port in their order: wires without a sign, each with its range and under its name behind
/// `prefix`. No name in the scope means one of them.
pub fn box_signals(
    alloc: Global,
    d: &mut Drawing,
    prefix: &[u8],
    ports: &[PortShape],
    place: Place,
) -> Result<(), AllocError>
    ensures { OnOk result (drawn_of d.new ≡ with_box_signals prefix.now place ports.now (drawn_of d.old)) }
{
    add_all(alloc, &mut d.signals, prefix, ports, place)
}
