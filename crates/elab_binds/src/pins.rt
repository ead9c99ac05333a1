//! The ports of a module or of a box, as an instance sees them.
ghost use Rattle.std.specs.Prelude.{◌≡◌, IfOk, map};
ghost use Rattle.elab_binds.specs.Bindings.{input_at, pin_of, pin_of_box, pins_of_box, pins_of_module, port_name};
ghost use Rattle.elab_decls.specs.Tables.{table_of};
ghost use Rattle.elab_scopes.specs.Signals.{is_input};

use crate::boxes::PortShape;
use elab_decls::Entries;
use rdc_outside::Seq;
use std::alloc::{AllocError, Global};
use vlog_tree::{Direction, Port};

/// A port, as an instance sees it.
#[derive(Debug, Drop)]
pub struct Pin {
    pub name: Seq<u8>,
    /// Whether it is an input; otherwise it is an output.
    pub input: bool,
}

/// The name of a port.
#[tactic(auto, unfolding(crate::specs::Bindings::port_name))]
fn port_name(port: &Port) -> &[u8]
    ensures { result.now ≡ port_name port.now }
{
    match port {
        Port::Declared(_, _, name) => name.name.as_slice(),
        Port::Named(name) => name.name.as_slice(),
    }
}

/// Whether a name is declared as an input.
#[tactic(auto, unfolding(crate::specs::Bindings::input_at, elab_scopes::specs::Signals::is_input))]
fn input_at(entries: &Entries, name: &[u8]) -> bool
    ensures { result ≡ input_at ((table_of entries.now).at name.now) }
{
    match entries.get(name) {
        Some(entry) => matches!(entry.direction, Some(Direction::Input)),
        None => false,
    }
}

/// A port of a module.
fn pin_of(alloc: Global, port: &Port, entries: &Entries) -> Result<Pin, AllocError>
    ensures { IfOk result (λ p. p ≡ pin_of (table_of entries.now).at port.now) }
{
    let name = port_name(port);
    let input = input_at(entries, name);
    let name = Seq::from_vec(name.to_vec(alloc)?);
    Ok(Pin { name, input })
}

/// The ports of a module, in the order of their list; `entries` is what its body declares.
pub fn pins_of_module(
    alloc: Global,
    ports: &[Port],
    entries: &Entries,
) -> Result<Vec<Pin>, AllocError>
    ensures { IfOk result (λ pins. pins.items ≡ pins_of_module (table_of entries.now).at ports.now) }
{
    let mut pins = Vec::with_capacity(alloc, ports.len())?;
    for port in ports {
        pins.push(pin_of(alloc, port, entries)?)?;
    }
    Ok(pins)
}

/// A port of a box.
fn pin_of_box(alloc: Global, port: &PortShape) -> Result<Pin, AllocError>
    ensures { IfOk result (λ p. p ≡ pin_of_box port.now) }
{
    let name = Seq::from_vec(port.name.as_slice().to_vec(alloc)?);
    let input = port.input;
    Ok(Pin { name, input })
}

/// The ports of a box, in their order.
pub fn pins_of_box(alloc: Global, ports: &[PortShape]) -> Result<Vec<Pin>, AllocError>
    ensures { IfOk result (λ pins. pins.items ≡ pins_of_box ports.now) }
{
    let mut pins = Vec::with_capacity(alloc, ports.len())?;
    for port in ports {
        pins.push(pin_of_box(alloc, port)?)?;
    }
    Ok(pins)
}
