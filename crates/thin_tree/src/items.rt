//! Reads signals, drivers and processes of a design.

ghost use Rattle.std.specs.Prelude.{◌≡◌, Some, None, map, IfOk};
ghost use Rattle.std.specs.Option.{option_map};
ghost use Rattle.std.specs.Result.{IsErrOf};
ghost use Rattle.thin_tree.specs.Form.{all_of, is_wire, is_register, is_net, input_names, signal_in, assignment_in, process_in};
ghost use Rattle.thin_tree.specs.Written.{all_declared, an_assignment, a_process};

use crate::expressions::{name, value};
use crate::fault::FormFault;
use crate::names::Names;
use crate::statements::process;
use crate::tree::{Assign, Class, Declared, Process};
use design_form::{Driver, Signal};
use std::alloc::{AllocError, Global};

#[tactic(auto, unfolding(crate::specs::Form::is_net))]
pub(crate) fn is_net(class: Class) -> bool
    ensures { result ≡ is_net class }
{
    match class {
        Class::Net => true,
        _ => false,
    }
}

#[tactic(auto, unfolding(crate::specs::Form::is_wire))]
fn is_wire(class: Option<Class>) -> bool
    ensures { result ≡ is_wire class }
{
    match class {
        None => false,
        Some(class) => is_net(class),
    }
}

#[tactic(auto, unfolding(crate::specs::Form::is_register))]
fn is_register(class: Option<Class>) -> bool
    ensures { result ≡ is_register class }
{
    match class {
        Some(Class::Register) => true,
        _ => false,
    }
}

/// A driver of a wire.
#[tactic(auto, unfolding(crate::specs::Form::assignment_in, crate::specs::Form::and_then, crate::specs::Form::where_so))]
fn assignment<'a>(
    alloc: Global,
    names: &Names<'a>,
    driver: &'a Driver,
) -> Result<Option<Assign<'a>>, AllocError>
    ensures { IfOk result (λ r. option_map an_assignment r ≡ assignment_in names.now.design.now driver.now) }
{
    let Some(target) = name(&driver.target) else {
        return Ok(None);
    };
    let Some(value) = value(alloc, &driver.value)? else {
        return Ok(None);
    };
    if !is_wire(names.class_at(target)) {
        return Ok(None);
    }
    Ok(Some(Assign { target, value }))
}

/// A process that loads a register.
#[tactic(auto, unfolding(crate::specs::Form::process_in, crate::specs::Form::and_then, crate::specs::Form::where_so))]
fn clocked<'a>(
    alloc: Global,
    names: &Names<'a>,
    given: &'a design_form::Process,
) -> Result<Option<Process<'a>>, AllocError>
    ensures { IfOk result (λ r. option_map a_process r ≡ process_in names.now.design.now given.now) }
{
    let Some(found) = process(alloc, &given.control, &given.body)? else {
        return Ok(None);
    };
    if !is_register(names.class_at(found.loaded)) {
        return Ok(None);
    }
    Ok(Some(Process {
        clock: names.root(found.clock),
        falling: found.falling,
        event: names.root(found.event),
        negated: found.negated,
        tested: names.root(found.tested),
        cleared: found.cleared,
        value: found.value,
        loaded: found.loaded,
        data: found.data,
    }))
}

/// All signals.
#[tactic(auto, unfolding(crate::specs::Form::all_of))]
pub(crate) fn signals<'a>(
    alloc: Global,
    names: &Names<'a>,
    given: &'a [Signal],
) -> Result<Vec<Declared<'a>>, FormFault>
    ensures signals { IfOk result (λ v. all_of (signal_in (input_names names.now.design.now.ports)) given.now ≡ Some (all_declared v.items)) }
    ensures not_of_form { IsErrOf result FormFault.NotOfForm → all_of (signal_in (input_names names.now.design.now.ports)) given.now ≡ None }
{
    let mut out = Vec::new(alloc);
    for s in given {
        match names.signal(s) {
            Some(found) => out.push(found)?,
            None => return Err(FormFault::NotOfForm),
        }
    }
    Ok(out)
}

/// All drivers.
#[tactic(auto, unfolding(crate::specs::Form::all_of))]
pub(crate) fn assignments<'a>(
    alloc: Global,
    names: &Names<'a>,
    given: &'a [Driver],
) -> Result<Vec<Assign<'a>>, FormFault>
    ensures assigns { IfOk result (λ v. all_of (assignment_in names.now.design.now) given.now ≡ Some (map an_assignment v.items)) }
    ensures not_of_form { IsErrOf result FormFault.NotOfForm → all_of (assignment_in names.now.design.now) given.now ≡ None }
{
    let mut out = Vec::new(alloc);
    for d in given {
        match assignment(alloc, names, d)? {
            Some(found) => out.push(found)?,
            None => return Err(FormFault::NotOfForm),
        }
    }
    Ok(out)
}

/// All processes.
#[tactic(auto, unfolding(crate::specs::Form::all_of))]
pub(crate) fn processes<'a>(
    alloc: Global,
    names: &Names<'a>,
    given: &'a [design_form::Process],
) -> Result<Vec<Process<'a>>, FormFault>
    ensures processes { IfOk result (λ v. all_of (process_in names.now.design.now) given.now ≡ Some (map a_process v.items)) }
    ensures not_of_form { IsErrOf result FormFault.NotOfForm → all_of (process_in names.now.design.now) given.now ≡ None }
{
    let mut out = Vec::new(alloc);
    for p in given {
        match clocked(alloc, names, p)? {
            Some(found) => out.push(found)?,
            None => return Err(FormFault::NotOfForm),
        }
    }
    Ok(out)
}
