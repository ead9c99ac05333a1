//! Checks the rules of a module, and gives its processes and expressions by number.

ghost use Rattle.std.specs.Prelude.{◌≡◌, ◌<◌, ◌^◌, length, ◌↔◌, IsTrue, IfOk};
ghost use Rattle.std.specs.List.{AllByRecursion};
ghost use Rattle.std.specs.Result.{IsErrOf};
ghost use Rattle.std.specs.List.Sorted.{IsSortedByKey};
ghost use Rattle.std.specs.Ordering.{nat_cmp};
ghost use Rattle.std.specs.Cmp.Lexicographic.{slice_cmp};
ghost use Rattle.thin_tree.specs.Written.{all_declared};
ghost use Rattle.thin_form.specs.Design.{IsAscending};
ghost use Rattle.thin_tree.specs.declared.tree.Class.TheVariants.{Net, Register};
ghost use Rattle.thin_form.specs.Rules.{names_of, targets, cleared, KeepsRules};
ghost use Rattle.thin_form.specs.Numbers.{AreLists, IsControlled};
ghost use Rattle.thin_form.specs.Listed.{lists};
ghost use Rattle.thin_form.specs.Order.{all_assigns, all_processes, of_class};
ghost use Rattle.thin_form.specs.Resolved.{AreNumbers, IsRefused, IsResolved};

use crate::assigned::{Assigned, Clocked, are_same, cleared, taken, targets, values};
use crate::controls::{clocks, controls};
use crate::declarations::{names_of_class, names_of_sources};
use crate::kind::Flop;
use crate::names::Names;
use crate::ordering::order;
use crate::rules::rules;
use crate::term::Term;
use crate::wiring::reads;
use std::alloc::{AllocError, Global};
use thin_tree::{Class, Declared, FormFault};

/// Processes and expressions by number, and the order of the wires.
#[derive(Drop)]
pub(crate) struct Resolved {
    pub(crate) flops: Vec<Flop>,
    pub(crate) wires: Vec<Vec<Term>>,
    pub(crate) data: Vec<Vec<Term>>,
    pub(crate) order: Vec<u32>,
}

/// The wires that are declared are those that are assigned.
fn wires_agree(
    alloc: Global,
    declared: &[Declared],
    assigns: &[Assigned],
) -> Result<bool, AllocError>
    ensures { IfOk result (λ b. IsTrue b ↔ (targets (all_assigns assigns.now) ≡ of_class Net (all_declared declared.now))) }
{
    let nets = names_of_class(alloc, declared, Class::Net)?;
    let aimed = targets(alloc, assigns)?;
    Ok(are_same(&aimed, &nets))
}

/// The registers that are declared are those that processes assign.
fn registers_agree(
    alloc: Global,
    declared: &[Declared],
    processes: &[Clocked],
) -> Result<bool, AllocError>
    ensures { IfOk result (λ b. IsTrue b ↔ (cleared (all_processes processes.now) ≡ of_class Register (all_declared declared.now))) }
{
    let registers = names_of_class(alloc, declared, Class::Register)?;
    let aimed = cleared(alloc, processes)?;
    Ok(are_same(&aimed, &registers))
}

/// Processes and expressions by number, where the names are listed in order.
fn numbered<'b, 'a>(
    alloc: Global,
    names: &Names<'_, 'a>,
    assigns: &[Assigned<'b, 'a>],
    processes: &[Clocked<'b, 'a>],
) -> Result<Resolved, FormFault>
    requires lists { AreLists (lists names.now) }
    requires assigned { targets (all_assigns assigns.now) ≡ (lists names.now).wires }
    ensures numbers { IfOk result (λ r. AreNumbers (lists names.now) (all_processes processes.now) (all_assigns assigns.now) r) }
    ensures controlled { IfOk result (λ r. AllByRecursion (IsControlled (lists names.now)) (all_processes processes.now)) }
    ensures not_of_form { IsErrOf result FormFault.NotOfForm → IsRefused (lists names.now) (all_processes processes.now) (all_assigns assigns.now) }
{
    let flops = match controls(alloc, names, processes) {
        Ok(found) => found,
        Err(fault) => return Err(fault),
    };
    let wires = match rules(alloc, names, &values(alloc, assigns)?) {
        Ok(found) => found,
        Err(fault) => return Err(fault),
    };
    let data = match rules(alloc, names, &taken(alloc, processes)?) {
        Ok(found) => found,
        Err(fault) => return Err(fault),
    };
    let order = match order(alloc, &reads(alloc, &wires)?)? {
        Some(found) => found,
        None => return Err(FormFault::NotOfForm),
    };
    Ok(Resolved {
        flops,
        wires,
        data,
        order,
    })
}

/// Processes and expressions by number, where all rules are kept. What is declared and assigned stands in name order.
pub(crate) fn resolve<'b, 'a>(
    alloc: Global,
    declared: &[Declared<'a>],
    assigns: &[Assigned<'b, 'a>],
    processes: &[Clocked<'b, 'a>],
) -> Result<Resolved, FormFault>
    requires few { length declared.now < 2 ^ 32 }
    requires ascending { IsAscending (names_of (all_declared declared.now)) }
    requires assigns_sorted { IsSortedByKey (λ a. a.of.now.target.now) (slice_cmp nat_cmp) assigns.now }
    requires processes_sorted { IsSortedByKey (λ p. p.of.now.cleared.now) (slice_cmp nat_cmp) processes.now }
    ensures rules { IfOk result (λ r. KeepsRules (all_declared declared.now) (all_processes processes.now) (all_assigns assigns.now)) }
    ensures resolved { IfOk result (λ r. IsResolved (all_declared declared.now) (all_processes processes.now) (all_assigns assigns.now) r) }
    ensures not_of_form { IsErrOf result FormFault.NotOfForm → KeepsRules (all_declared declared.now) (all_processes processes.now) (all_assigns assigns.now) → ⊥ }
{
    if !wires_agree(alloc, declared, assigns)? {
        return Err(FormFault::NotOfForm);
    }
    if !registers_agree(alloc, declared, processes)? {
        return Err(FormFault::NotOfForm);
    }
    let inputs = names_of_class(alloc, declared, Class::Input)?;
    let sources = names_of_sources(alloc, declared)?;
    let wires = names_of_class(alloc, declared, Class::Net)?;
    let clocks = match clocks(alloc, &inputs, &sources, processes) {
        Ok(found) => found,
        Err(fault) => return Err(fault),
    };
    let names = Names {
        inputs: &inputs,
        sources: &sources,
        wires: &wires,
        clocks: &clocks,
    };
    numbered(alloc, &names, assigns, processes)
}
