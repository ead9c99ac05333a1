//! What a whole design must meet.
ghost use Rattle.std.specs.Prelude.{◌≡◌, ◌≤◌, ◌++◌, OnOk, length};
ghost use Rattle.std.specs.List.{flat_map};
ghost use Rattle.design_sizes.specs.Lists.{all_sized};
ghost use Rattle.design_sizes.specs.Sizes.{sized_alone, sized_target};
ghost use Rattle.elab_names.specs.Answers.{Answers};
ghost use Rattle.elab_sound.specs.Sound.{all_checked, bit_checked, control_checked, driver_checked, event_checked, gate_checked, outputs, parts_checked, process_checked, sized_terminals, sound};

use crate::checks::{checked, fixed};
use design_form::{Design, Driver, EvalFault, GateUse, Process};
use design_sizes::{Sizing, put_alone, put_assignment, put_statement, put_target};
use elab_names::ElabFault;
use rdc_outside::Place;
use sqlite_items::Boxed;
use std::alloc::Global;
use vlog_tree::{Control, Event, Expr, GateKind};

/// Parts in their contexts.
fn parts(alloc: Global, design: &Design, parts: &[Sizing]) -> Result<(), ElabFault>
    ensures { Answers (λ u. u) result (parts_checked design.now (all_sized parts.now)) }
{
    for part in parts {
        match checked(alloc, design, part) {
            Ok(()) => {}
            Err(fault) => return Err(fault),
        }
    }
    Ok(())
}

/// A driver.
fn driver<'a>(
    alloc: Global,
    design: &Design,
    room: &mut Vec<Sizing<'a>>,
    driver: &'a Driver,
) -> Result<(), ElabFault>
    ensures { Answers (λ u. u) result (driver_checked design.now driver.now) }
{
    room.clear();
    match put_assignment(alloc, design, room, &driver.target, &driver.value) {
        Ok(()) => parts(alloc, design, room.as_slice()),
        Err(EvalFault::Memory) => Err(ElabFault::Memory),
    }
}

/// How many of some terminals are outputs.
#[tactic(auto, unfolding(crate::specs::Sound::outputs))]
fn outputs(kind: GateKind, terminals: usize) -> usize
    ensures value { result ≡ outputs kind terminals }
    ensures bound { result ≤ terminals }
{
    match kind {
        GateKind::Not | GateKind::Buf => terminals.saturating_sub(1),
        _ => terminals.min(1),
    }
}

/// The parts of outputs.
fn put_outputs<'a>(
    alloc: Global,
    design: &Design,
    room: &mut Vec<Sizing<'a>>,
    terminals: &'a [Expr],
) -> Result<(), EvalFault>
    ensures { OnOk result (all_sized room.new.items ≡ all_sized room.old.items ++ flat_map (sized_target design.now) terminals.now) }
{
    for terminal in terminals {
        put_target(alloc, design, room, terminal)?;
    }
    Ok(())
}

/// The parts of inputs.
fn put_inputs<'a>(
    alloc: Global,
    design: &Design,
    room: &mut Vec<Sizing<'a>>,
    terminals: &'a [Expr],
) -> Result<(), EvalFault>
    ensures { OnOk result (all_sized room.new.items ≡ all_sized room.old.items ++ flat_map (sized_alone design.now) terminals.now) }
{
    for terminal in terminals {
        put_alone(alloc, design, room, terminal)?;
    }
    Ok(())
}

/// The parts of terminals, so many outputs first.
fn put_terminals<'a>(
    alloc: Global,
    design: &Design,
    room: &mut Vec<Sizing<'a>>,
    outputs: usize,
    terminals: &'a [Expr],
) -> Result<(), EvalFault>
    requires { outputs ≤ length terminals.now }
    ensures { OnOk result (all_sized room.new.items ≡ all_sized room.old.items ++ sized_terminals design.now outputs terminals.now) }
{
    let (outputs, inputs) = terminals.split_at(outputs);
    put_outputs(alloc, design, room, outputs)?;
    put_inputs(alloc, design, room, inputs)
}

/// A gate.
fn gate<'a>(
    alloc: Global,
    design: &Design,
    room: &mut Vec<Sizing<'a>>,
    gate: &'a GateUse,
) -> Result<(), ElabFault>
    ensures { Answers (λ u. u) result (gate_checked design.now gate.now) }
{
    room.clear();
    let terminals = gate.terminals.as_slice();
    let outputs = outputs(gate.kind, terminals.len());
    match put_terminals(alloc, design, room, outputs, terminals) {
        Ok(()) => parts(alloc, design, room.as_slice()),
        Err(EvalFault::Memory) => Err(ElabFault::Memory),
    }
}

/// The bit of an event.
#[tactic(auto, unfolding(crate::specs::Sound::bit_checked))]
fn bit(
    alloc: Global,
    design: &Design,
    place: Place,
    name: &[u8],
    index: &Option<Boxed<Expr>>,
) -> Result<(), ElabFault>
    ensures { Answers (λ u. u) result (bit_checked design.now place name.now index.now) }
{
    match index {
        None => Ok(()),
        Some(index) => fixed(alloc, design, place, name, index.get()),
    }
}

/// An event.
fn event(alloc: Global, design: &Design, event: &Event) -> Result<(), ElabFault>
    ensures { Answers (λ u. u) result (event_checked design.now event.now) }
{
    let name = &event.name;
    bit(
        alloc,
        design,
        name.place,
        name.name.as_slice(),
        &event.index,
    )
}

/// Events.
fn events(alloc: Global, design: &Design, events: &[Event]) -> Result<(), ElabFault>
    ensures { Answers (λ u. u) result (all_checked (event_checked design.now) events.now) }
{
    for one in events {
        match event(alloc, design, one) {
            Ok(()) => {}
            Err(fault) => return Err(fault),
        }
    }
    Ok(())
}

/// What a process waits for.
#[tactic(auto, unfolding(crate::specs::Sound::control_checked))]
fn control(alloc: Global, design: &Design, control: &Control) -> Result<(), ElabFault>
    ensures { Answers (λ u. u) result (control_checked design.now control.now) }
{
    match control {
        Control::Reads => Ok(()),
        Control::Events(all) => events(alloc, design, all.as_slice()),
    }
}

/// A process.
#[tactic(auto, unfolding(crate::specs::Sound::process_checked, elab_names::specs::Answers::and_then))]
fn process<'a>(
    alloc: Global,
    design: &Design,
    room: &mut Vec<Sizing<'a>>,
    process: &'a Process,
) -> Result<(), ElabFault>
    ensures { Answers (λ u. u) result (process_checked design.now process.now) }
{
    control(alloc, design, &process.control)?;
    room.clear();
    match put_statement(alloc, design, room, &process.body) {
        Ok(()) => parts(alloc, design, room.as_slice()),
        Err(EvalFault::Memory) => Err(ElabFault::Memory),
    }
}

/// Drivers.
fn drivers<'a>(
    alloc: Global,
    design: &Design,
    room: &mut Vec<Sizing<'a>>,
    drivers: &'a [Driver],
) -> Result<(), ElabFault>
    ensures { Answers (λ u. u) result (all_checked (driver_checked design.now) drivers.now) }
{
    for one in drivers {
        match driver(alloc, design, room, one) {
            Ok(()) => {}
            Err(fault) => return Err(fault),
        }
    }
    Ok(())
}

/// Gates.
fn gates<'a>(
    alloc: Global,
    design: &Design,
    room: &mut Vec<Sizing<'a>>,
    gates: &'a [GateUse],
) -> Result<(), ElabFault>
    ensures { Answers (λ u. u) result (all_checked (gate_checked design.now) gates.now) }
{
    for one in gates {
        match gate(alloc, design, room, one) {
            Ok(()) => {}
            Err(fault) => return Err(fault),
        }
    }
    Ok(())
}

/// Processes.
fn processes<'a>(
    alloc: Global,
    design: &Design,
    room: &mut Vec<Sizing<'a>>,
    processes: &'a [Process],
) -> Result<(), ElabFault>
    ensures { Answers (λ u. u) result (all_checked (process_checked design.now) processes.now) }
{
    for one in processes {
        match process(alloc, design, room, one) {
            Ok(()) => {}
            Err(fault) => return Err(fault),
        }
    }
    Ok(())
}

/// Whether each expression of a design meets what the standard and this program ask beside its names.
///
/// Loops are taken as they stand: their headers are not looked at, and a variable of one is a signal as any other.
///
/// # Errors
/// Of the first part that has one, drivers first, then gates, then processes: `BadRange` at a select by constants outside its
/// signal's range, at a part that goes against it or has no bits, and at a negative number of copies; `Const` where a bound,
/// a width, a count, a constant index, the index of an event, or an operand of `/`, `%` or `**` has no value as a constant.
#[tactic(auto, unfolding(crate::specs::Sound::sound, elab_names::specs::Answers::and_then))]
pub fn sound(alloc: Global, design: &Design) -> Result<(), ElabFault>
    ensures { Answers (λ u. u) result (sound design.now) }
{
    let parts = design.parts();
    let mut room = Vec::new(alloc);
    drivers(alloc, design, &mut room, parts.drivers.as_slice())?;
    gates(alloc, design, &mut room, parts.gates.as_slice())?;
    processes(alloc, design, &mut room, parts.processes.as_slice())
}
