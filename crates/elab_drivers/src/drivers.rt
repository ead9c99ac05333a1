//! Drivers and processes.
ghost use Rattle.std.specs.Prelude.{◌≡◌, OnOk, Some};
ghost use Rattle.elab_drivers.specs.Drafts.{draft_of, with_driver, with_process};
ghost use Rattle.elab_drivers.specs.Drivers.{assigns, processed, wired, wired_by};
ghost use Rattle.elab_scopes.specs.Tables.{Changes};
ghost use Rattle.elab_scopes.specs.Threads.{threaded};

use crate::draft::Draft;
use crate::targets::{assigned, drivable};
use design_form::{Driver, DriverKind, Process};
use elab_names::{ElabFault, control_in, put_in, statement_in};
use elab_scopes::place_of;
use rdc_outside::Place;
use std::alloc::{AllocError, Global};
use vlog_tree::{Assignment, Control, Expr, Ident, Name, Net, Stmt};

impl Draft {
    /// One more driver.
    pub(crate) fn drive(&mut self, driver: Driver) -> Result<(), AllocError>
        ensures { OnOk result (draft_of self.new ≡ with_driver (draft_of self.old) driver) }
    {
        self.drivers.push(driver)?;
        Ok(())
    }

    /// One more process.
    fn run(&mut self, process: Process) -> Result<(), AllocError>
        ensures { OnOk result (draft_of self.new ≡ with_process (draft_of self.old) process) }
    {
        self.processes.push(process)?;
        Ok(())
    }
}

/// A wire that is driven where it is declared.
#[tactic(auto, unfolding(crate::specs::Drivers::wired_by, elab_names::specs::Answers::and_then))]
fn wire_by(alloc: Global, d: &mut Draft, name: &Ident, value: &Expr) -> Result<(), ElabFault>
    ensures { Changes result (draft_of d.new) (wired_by (draft_of d.old) name.now value.now) }
{
    let scope = &d.drawing.scope;
    let signal = drivable(alloc, name.place, name.name.as_slice(), scope)?;
    let target = Name::from_slice(alloc, signal.printed.as_slice())?;
    let value = put_in(alloc, value, scope)?;
    d.drive(Driver {
        place: name.place,
        kind: DriverKind::Assign,
        target: Expr::Name(name.place, target),
        value,
    })?;
    Ok(())
}

/// A declared wire with its driver, if it has one.
#[tactic(auto, unfolding(crate::specs::Drivers::wired, crate::specs::Drivers::wired_if))]
fn wire(alloc: Global, d: &mut Draft, net: &Net) -> Result<(), ElabFault>
    ensures { Changes result (draft_of d.new) (wired (draft_of d.old) net.now) }
{
    match &net.driver {
        Some(value) => wire_by(alloc, d, &net.name, value),
        None => Ok(()),
    }
}

/// Declared wires with their drivers.
///
/// # Errors
/// Of the first that has one: `NotAssignable` at the name of an input port, and what `put_in` answers of its driver.
pub fn wire_all(alloc: Global, d: &mut Draft, nets: &[Net]) -> Result<(), ElabFault>
    ensures { Changes result (draft_of d.new) (threaded wired (draft_of d.old) nets.now) }
{
    for net in nets {
        match wire(alloc, d, net) {
            Ok(()) => {}
            Err(fault) => return Err(fault),
        }
    }
    Ok(())
}

/// One assignment of an `assign`.
#[tactic(auto, unfolding(crate::specs::Drivers::assigns, elab_names::specs::Answers::and_then))]
fn assign(alloc: Global, d: &mut Draft, assignment: &Assignment) -> Result<(), ElabFault>
    ensures { Changes result (draft_of d.new) (assigns (draft_of d.old) assignment.now) }
{
    let scope = &d.drawing.scope;
    let target = assigned(alloc, &assignment.target, scope)?;
    let value = put_in(alloc, &assignment.value, scope)?;
    d.drive(Driver {
        place: place_of(&assignment.target),
        kind: DriverKind::Assign,
        target,
        value,
    })?;
    Ok(())
}

/// The assignments of an `assign`.
///
/// # Errors
/// Of the first that has one: what `assigned` answers of its target, and `put_in` of its value.
pub fn assign_all(alloc: Global, d: &mut Draft, assignments: &[Assignment]) -> Result<(), ElabFault>
    ensures { Changes result (draft_of d.new) (threaded assigns (draft_of d.old) assignments.now) }
{
    for assignment in assignments {
        match assign(alloc, d, assignment) {
            Ok(()) => {}
            Err(fault) => return Err(fault),
        }
    }
    Ok(())
}

/// A process.
///
/// # Errors
/// What `control_in` answers of what it waits for, and `statement_in` of its body.
#[tactic(auto, unfolding(crate::specs::Drivers::processed, elab_names::specs::Answers::and_then))]
pub fn process(
    alloc: Global,
    d: &mut Draft,
    place: Place,
    control: &Control,
    body: &Stmt,
) -> Result<(), ElabFault>
    ensures { Changes result (draft_of d.new) (processed place control.now body.now (draft_of d.old)) }
{
    let scope = &d.drawing.scope;
    let control = control_in(alloc, control, scope)?;
    let body = statement_in(alloc, body, scope)?;
    d.run(Process {
        place,
        control,
        body,
    })?;
    Ok(())
}
