//! Reads a flat design of the form.

ghost use Rattle.std.specs.Prelude.{◌≡◌, ◌&&◌, not, map, filter, Some, None, IfOk};
ghost use Rattle.std.specs.Result.{IsErrOf};
ghost use Rattle.design_form.specs.Numbers.{index_of};
ghost use Rattle.thin_tree.specs.Form.{form_of, is_clock, is_empty, stays, without_clocks};
ghost use Rattle.thin_tree.specs.Grammar.{IsTree};
ghost use Rattle.thin_tree.specs.Places.{places_at};
ghost use Rattle.thin_tree.specs.Written.{a_declared, a_module, a_process, all_declared, an_assignment, texts};

use crate::fault::FormFault;
use crate::items::{assignments, is_net, processes, signals};
use crate::names::Names;
use crate::places::Places;
use crate::tree::{Assign, Declared, Module, Process};
use design_form::{Design, Parts};
use std::alloc::{AllocError, Global};

/// The clocks of processes.
fn clocks<'a>(alloc: Global, processes: &[Process<'a>]) -> Result<Vec<&'a [u8]>, AllocError>
    ensures { IfOk result (λ v. texts v.items ≡ map (λ p. p.clock) (map a_process processes.now)) }
{
    let mut names = Vec::new(alloc);
    for p in processes {
        names.push(p.clock)?;
    }
    Ok(names)
}

/// Whether a name leads to a clock.
#[tactic(auto, unfolding(crate::specs::Form::is_clock))]
fn is_clock<'a>(
    names: &Names<'a>,
    clocks: &Places,
    processes: &[Process<'a>],
    name: &'a [u8],
) -> bool
    requires { places_at clocks.now ≡ index_of (map (λ p. p.clock) (map a_process processes.now)) }
    ensures { result ≡ is_clock names.now.design.now (map a_process processes.now) name.now }
{
    clocks.has(names.root(name))
}

/// Whether a signal is none that leads to a clock.
#[tactic(auto, unfolding(crate::specs::Form::stays))]
fn stays<'a>(
    names: &Names<'a>,
    clocks: &Places,
    processes: &[Process<'a>],
    signal: &Declared<'a>,
) -> bool
    requires { places_at clocks.now ≡ index_of (map (λ p. p.clock) (map a_process processes.now)) }
    ensures { result ≡ stays names.now.design.now (map a_process processes.now) (a_declared signal.now) }
{
    !(is_net(signal.class) && is_clock(names, clocks, processes, signal.name))
}

/// The signals that stay.
fn keep_signals<'a>(
    signals: &mut Vec<Declared<'a>>,
    names: &Names<'a>,
    clocks: &Places,
    processes: &[Process<'a>],
)
    requires { places_at clocks.now ≡ index_of (map (λ p. p.clock) (map a_process processes.now)) }
    ensures { all_declared signals.new.items ≡ filter (stays names.now.design.now (map a_process processes.now)) (all_declared signals.old.items) }
{
    signals.retain(|s| stays(names, clocks, processes, s));
}

/// What is assigned to those that stay.
fn keep_assigns<'a>(
    assigns: &mut Vec<Assign<'a>>,
    names: &Names<'a>,
    clocks: &Places,
    processes: &[Process<'a>],
)
    requires { places_at clocks.now ≡ index_of (map (λ p. p.clock) (map a_process processes.now)) }
    ensures { map an_assignment assigns.new.items ≡ filter (λ a. not (is_clock names.now.design.now (map a_process processes.now) a.target)) (map an_assignment assigns.old.items) }
{
    assigns.retain(|a| !is_clock(names, clocks, processes, a.target));
}

/// Leaves out the wires that lead to clocks, with what is assigned to them.
fn without_clocks<'a>(
    alloc: Global,
    names: &Names<'a>,
    declared: Vec<Declared<'a>>,
    assigns: Vec<Assign<'a>>,
    processes: Vec<Process<'a>>,
) -> Result<Module<'a>, AllocError>
    ensures { IfOk result (λ m. a_module m ≡ without_clocks names.now.design.now (all_declared declared.entry.items) (map an_assignment assigns.entry.items) (map a_process processes.entry.items)) }
{
    let clocks = Places::new(alloc, &clocks(alloc, &processes)?)?;
    let mut declared = declared;
    let mut assigns = assigns;
    keep_signals(&mut declared, names, &clocks, &processes);
    keep_assigns(&mut assigns, names, &clocks, &processes);
    Ok(Module {
        declared,
        assigns,
        processes,
    })
}

/// Neither boxes nor gates.
#[tactic(auto, unfolding(crate::specs::Form::is_empty))]
fn has_no_others(parts: &Parts) -> bool
    ensures { result ≡ is_empty parts.now.boxes && is_empty parts.now.gates }
{
    match (parts.boxes.as_slice(), parts.gates.as_slice()) {
        ([], []) => true,
        _ => false,
    }
}

/// What a flat design says in the form.
#[tactic(auto, unfolding(crate::specs::Form::form_of, crate::specs::Form::and_then, crate::specs::Form::where_so))]
fn whole<'a>(alloc: Global, design: &'a Design) -> Result<Module<'a>, FormFault>
    ensures tree { IfOk result (λ m. form_of design.now ≡ Some (a_module m)) }
    ensures not_of_form { IsErrOf result FormFault.NotOfForm → form_of design.now ≡ None }
{
    let names = Names::new(alloc, design)?;
    let parts = design.parts();
    let declared = signals(alloc, &names, parts.signals.as_slice())?;
    let assigns = assignments(alloc, &names, parts.drivers.as_slice())?;
    let processes = processes(alloc, &names, parts.processes.as_slice())?;
    if !has_no_others(parts) {
        return Err(FormFault::NotOfForm);
    }
    Ok(without_clocks(alloc, &names, declared, assigns, processes)?)
}

/// What a flat design says in the form, its names lent by the design.
pub fn read<'a>(alloc: Global, design: &'a Design) -> Result<Module<'a>, FormFault>
    ensures tree { IfOk result (λ m. form_of design.now ≡ Some (a_module m)) }
    ensures names { IfOk result (λ m. IsTree (a_module m)) }
    ensures not_of_form { IsErrOf result FormFault.NotOfForm → form_of design.now ≡ None }
{
    whole(alloc, design)
}
