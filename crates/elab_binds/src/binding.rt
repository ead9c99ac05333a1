//! The drivers that bind the ports of an instance.
ghost use Rattle.std.specs.Prelude.{◌≡◌, ◌≤◌, ◌++◌, IfOk, OnOk, Some, true, false, length};
ghost use Rattle.vlog_tree.specs.declared.expr.Expr.TheVariants as expr;
ghost use Rattle.elab_drivers.specs.Drafts.{draft_of};
ghost use Rattle.elab_scopes.specs.Tables.{Changes};
ghost use Rattle.elab_scopes.specs.Threads.{threaded};
ghost use Rattle.elab_binds.specs.Bindings.{binding, binds, bound, pin_input, pin_name};
ghost use Rattle.elab_binds.specs.Connections.{named, named_one, ordered, paired, so_far};
ghost use Rattle.elab_binds.specs.Flags.{flags_of};

use crate::flags::{Flags, flags_in, taking};
use crate::pins::Pin;
use crate::printing::printed;
use design_form::{Driver, DriverKind};
use elab_drivers::{Draft, assigned};
use elab_names::{ElabFault, put_in};
use elab_scopes::place_of;
use rdc_outside::Place;
use std::alloc::{AllocError, Global};
use vlog_tree::{Connections, Expr, Name, NamedConnection};

/// The signal of a port.
fn signal(alloc: Global, place: Place, prefix: &[u8], name: &[u8]) -> Result<Expr, AllocError>
    ensures { IfOk result (λ e. e ≡ expr.Name place (prefix.now ++ name.now)) }
{
    let printed = printed(alloc, prefix, name)?;
    Ok(Expr::Name(place, Name::from_slice(alloc, printed.as_slice())?))
}

/// One more driver that binds.
fn add(d: &mut Draft, place: Place, target: Expr, value: Expr) -> Result<(), AllocError>
    ensures { OnOk result (draft_of d.new ≡ binds (draft_of d.old) place target value) }
{
    d.drivers.push(Driver {
        place,
        kind: DriverKind::Binding,
        target,
        value,
    })?;
    Ok(())
}

/// An input is driven by the expression.
#[tactic(auto, unfolding(crate::specs::Bindings::binding, elab_names::specs::Answers::and_then))]
fn drive_in(
    alloc: Global,
    d: &mut Draft,
    prefix: &[u8],
    name: &[u8],
    e: &Expr,
) -> Result<(), ElabFault>
    ensures { Changes result (draft_of d.new) (binding prefix.now (draft_of d.old) name.now true (Some e.now)) }
{
    let place = place_of(e);
    let value = put_in(alloc, e, &d.drawing.scope)?;
    let target = signal(alloc, place, prefix, name)?;
    add(d, place, target, value)?;
    Ok(())
}

/// An output drives the expression.
#[tactic(auto, unfolding(crate::specs::Bindings::binding, elab_names::specs::Answers::and_then))]
fn drive_out(
    alloc: Global,
    d: &mut Draft,
    prefix: &[u8],
    name: &[u8],
    e: &Expr,
) -> Result<(), ElabFault>
    ensures { Changes result (draft_of d.new) (binding prefix.now (draft_of d.old) name.now false (Some e.now)) }
{
    let place = place_of(e);
    let target = assigned(alloc, e, &d.drawing.scope)?;
    let value = signal(alloc, place, prefix, name)?;
    add(d, place, target, value)?;
    Ok(())
}

/// A connection to a port.
#[tactic(auto, unfolding(crate::specs::Bindings::binding))]
fn connect(
    alloc: Global,
    d: &mut Draft,
    prefix: &[u8],
    name: &[u8],
    input: bool,
    value: &Option<Expr>,
) -> Result<(), ElabFault>
    ensures { Changes result (draft_of d.new) (binding prefix.now (draft_of d.old) name.now input value.now) }
{
    match value {
        None => Ok(()),
        Some(e) => {
            if input {
                drive_in(alloc, d, prefix, name, e)
            } else {
                drive_out(alloc, d, prefix, name, e)
            }
        }
    }
}

/// The same of a port in the list.
fn connect_pin(
    alloc: Global,
    d: &mut Draft,
    prefix: &[u8],
    pin: &Pin,
    value: &Option<Expr>,
) -> Result<(), ElabFault>
    ensures { Changes result (draft_of d.new) (binding prefix.now (draft_of d.old) (pin_name pin.now) (pin_input pin.now) value.now) }
{
    connect(alloc, d, prefix, pin.name.as_slice(), pin.input, value)
}

/// Connections in order.
fn connect_paired(
    alloc: Global,
    d: &mut Draft,
    prefix: &[u8],
    pins: &[Pin],
    values: &[Option<Expr>],
) -> Result<(), ElabFault>
    requires { length values.now ≤ length pins.now }
    ensures { Changes result (draft_of d.new) (paired (λ t pin value. binding prefix.now t (pin_name pin) (pin_input pin) value) (draft_of d.old) pins.now values.now) }
{
    for (k, value) in values.iter().enumerate() {
        match connect_pin(alloc, d, prefix, &pins[k], value) {
            Ok(()) => {}
            Err(fault) => return Err(fault),
        }
    }
    Ok(())
}

/// Connections in order, of which there may not be too many.
#[tactic(auto, unfolding(crate::specs::Connections::ordered))]
fn bind_in_order(
    alloc: Global,
    d: &mut Draft,
    prefix: &[u8],
    pins: &[Pin],
    values: &[Option<Expr>],
    place: Place,
) -> Result<(), ElabFault>
    ensures { Changes result (draft_of d.new) (ordered (λ t pin value. binding prefix.now t (pin_name pin) (pin_input pin) value) place (draft_of d.old) pins.now values.now) }
{
    if pins.len() < values.len() {
        return Err(ElabFault::PortCount(place));
    }
    connect_paired(alloc, d, prefix, pins, values)
}

/// One more connection by name.
#[tactic(auto, unfolding(crate::specs::Connections::named_one, elab_names::specs::Answers::and_then))]
fn connect_named(
    alloc: Global,
    d: &mut Draft,
    taken: &mut Flags,
    prefix: &[u8],
    known: &Flags,
    one: &NamedConnection,
) -> Result<(), ElabFault>
    ensures { Changes result (so_far (flags_of taken.new) (draft_of d.new)) (named_one (binding prefix.now) (flags_of known.now) (so_far (flags_of taken.old) (draft_of d.old)) one.now) }
{
    let name = one.name.name.as_slice();
    let input = taking(alloc, known, taken, &one.name)?;
    connect(alloc, d, prefix, name, input, &one.value)?;
    taken.set(alloc, name, input)?;
    Ok(())
}

/// Connections by name.
fn connect_all(
    alloc: Global,
    d: &mut Draft,
    taken: &mut Flags,
    prefix: &[u8],
    known: &Flags,
    all: &[NamedConnection],
) -> Result<(), ElabFault>
    ensures { Changes result (so_far (flags_of taken.new) (draft_of d.new)) (threaded (named_one (binding prefix.now) (flags_of known.now)) (so_far (flags_of taken.old) (draft_of d.old)) all.now) }
{
    for one in all {
        match connect_named(alloc, d, taken, prefix, known, one) {
            Ok(()) => {}
            Err(fault) => return Err(fault),
        }
    }
    Ok(())
}

/// Connections by name, none of which is made yet.
#[tactic(auto, unfolding(crate::specs::Connections::named, elab_names::specs::Answers::and_then))]
fn bind_by_name(
    alloc: Global,
    d: &mut Draft,
    prefix: &[u8],
    known: &Flags,
    all: &[NamedConnection],
) -> Result<(), ElabFault>
    ensures { Changes result (draft_of d.new) (named (binding prefix.now) (flags_of known.now) (draft_of d.old) all.now) }
{
    let mut taken = Flags::none(alloc);
    connect_all(alloc, d, &mut taken, prefix, known, all)
}

/// The drivers that bind the ports of an instance, in the order of its connections; each stands where its expression does.
/// An input is driven by the expression, put in; an output drives what the expression assigns. A port is the signal of its
/// name behind `prefix`. What is left out binds nothing.
///
/// # Errors
/// `PortCount` where more stand in order than there are ports. By name, the first in the order of the text: `TwiceDeclared` at
/// a name that stands before, and `NoPort` at one that no port has; and what `put_in` and `assigned` answer.
#[tactic(auto, unfolding(crate::specs::Connections::connected))]
pub fn bind(
    alloc: Global,
    d: &mut Draft,
    prefix: &[u8],
    pins: &[Pin],
    connections: &Connections,
    place: Place,
) -> Result<(), ElabFault>
    ensures { Changes result (draft_of d.new) (bound prefix.now place pins.now connections.now (draft_of d.old)) }
{
    match connections {
        Connections::Ordered(values) => {
            bind_in_order(alloc, d, prefix, pins, values.as_slice(), place)
        }
        Connections::Named(all) => {
            let known = flags_in(alloc, pins)?;
            bind_by_name(alloc, d, prefix, &known, all.as_slice())
        }
    }
}
