//! Builds the design of a module that keeps the rules.

ghost use Rattle.std.specs.Prelude.{◌≡◌, ◌+◌, ◌<◌, ◌^◌, map, length, sum_by, IfOk};
ghost use Rattle.std.specs.List.{AllByRecursion};
ghost use Rattle.std.specs.List.Sorted.{IsSortedByKey};
ghost use Rattle.std.specs.Ordering.{nat_cmp};
ghost use Rattle.std.specs.Cmp.Lexicographic.{slice_cmp};
ghost use Rattle.std.specs.Result.{IsErrOf};
ghost use Rattle.thin_tree.specs.Grammar.{size, IsPlain, IsTree};
ghost use Rattle.thin_tree.specs.Postfix.{postfix};
ghost use Rattle.thin_tree.specs.Written.{a_module, all_declared};
ghost use Rattle.thin_form.specs.Design.{IsAscending};
ghost use Rattle.thin_form.specs.Order.{all_assigns, all_processes};
ghost use Rattle.thin_form.specs.Walk.{IsOrder};
ghost use Rattle.thin_form.specs.Values.{wires_in, rules_at, AreMade, IsRule};
ghost use Rattle.thin_form.specs.Built.{IsNetOf};
ghost use Rattle.thin_form.specs.Meaning.{IsDesignOf};
ghost use Rattle.thin_form.specs.Netlist.{design_of, source_nodes, AreNodes};
ghost use Rattle.thin_form.specs.Rules.{names_of, KeepsRules, IsOfForm};

use crate::assembly::{bits, sources};
use crate::assigned::{Assigned, Clocked, assigns, processes};
use crate::declarations::ordered;
use crate::kind::Node;
use crate::netlist::Netlist;
use crate::resolver::{Resolved, resolve};
use crate::wiring::{values, wires};
use std::alloc::{AllocError, Global};
use thin_tree::{Declared, FormFault, Module};

/// A node for each source.
fn source_nodes(alloc: Global, count: u32) -> Result<Vec<Node>, AllocError>
    ensures { IfOk result (λ v. v.items ≡ source_nodes 0 count) }
{
    let mut nodes = Vec::new(alloc);
    for n in 0..count {
        nodes.push(Node::Source(n))?;
    }
    Ok(nodes)
}

/// Nodes, those of the wires, and those that the registers read.
#[derive(Drop)]
struct Made {
    nodes: Vec<Node>,
    wires: Vec<u32>,
    values: Vec<u32>,
}

/// The nodes of what is resolved, behind those of so many sources.
fn nodes(alloc: Global, count: u32, found: &Resolved) -> Result<Made, FormFault>
    requires order { IsOrder (map wires_in (rules_at found.now.wires.items)) found.now.order.items }
    requires wires { AllByRecursion (IsRule count (length found.now.wires.items)) (rules_at found.now.wires.items) }
    requires values { AllByRecursion (IsRule count (length found.now.wires.items)) (rules_at found.now.data.items) }
    requires few { count + sum_by (λ ts. length ts) (rules_at found.now.wires.items) + sum_by (λ ts. length ts) (rules_at found.now.data.items) < 2 ^ 32 }
    ensures nodes { IfOk result (λ m. AreNodes count m.nodes.items) }
    ensures few { IfOk result (λ m. length m.nodes.items < 2 ^ 32) }
    ensures wires { IfOk result (λ m. AreMade m.nodes.items m.wires.items (rules_at found.now.wires.items) m.wires.items) }
    ensures values { IfOk result (λ m. AreMade m.nodes.items m.wires.items (rules_at found.now.data.items) m.values.items) }
    ensures of_form { IsErrOf result FormFault.NotOfForm → ⊥ }
{
    let mut nodes = source_nodes(alloc, count)?;
    let wires = match wires(alloc, &mut nodes, &found.wires, &found.order) {
        Ok(made) => made,
        Err(fault) => return Err(fault),
    };
    let values = match values(alloc, &mut nodes, &found.data, &wires) {
        Ok(made) => made,
        Err(fault) => return Err(fault),
    };
    Ok(Made {
        nodes,
        wires,
        values,
    })
}

/// The netlist of what is declared and assigned, in name order, where the rules are kept.
fn number<'b, 'a>(
    alloc: Global,
    declared: &[Declared<'a>],
    assigns: &[Assigned<'b, 'a>],
    processes: &[Clocked<'b, 'a>],
) -> Result<Netlist<'a>, FormFault>
    requires few { length declared.now + sum_by (λ a. length (postfix a.value)) (all_assigns assigns.now) + sum_by (λ p. length (postfix p.data)) (all_processes processes.now) < 2 ^ 32 }
    requires ascending { IsAscending (names_of (all_declared declared.now)) }
    requires plain { AllByRecursion IsPlain (names_of (all_declared declared.now)) }
    requires assigns_sorted { IsSortedByKey (λ a. a.of.now.target.now) (slice_cmp nat_cmp) assigns.now }
    requires processes_sorted { IsSortedByKey (λ p. p.of.now.cleared.now) (slice_cmp nat_cmp) processes.now }
    ensures rules { IfOk result (λ d. KeepsRules (all_declared declared.now) (all_processes processes.now) (all_assigns assigns.now)) }
    ensures net { IfOk result (λ d. IsNetOf (all_declared declared.now) (all_processes processes.now) (all_assigns assigns.now) d) }
    ensures not_of_form { IsErrOf result FormFault.NotOfForm → KeepsRules (all_declared declared.now) (all_processes processes.now) (all_assigns assigns.now) → ⊥ }
{
    let found = match resolve(alloc, declared, assigns, processes) {
        Ok(found) => found,
        Err(fault) => return Err(fault),
    };
    let count = declared.len() - found.wires.len();
    let made = match nodes(alloc, count as u32, &found) {
        Ok(made) => made,
        Err(fault) => return Err(fault),
    };
    let bits = bits(alloc, declared, &made.wires)?;
    let sources = sources(alloc, declared, &found.flops, &made.values)?;
    let nodes = made.nodes;
    Ok(Netlist {
        sources,
        bits,
        nodes,
    })
}

/// The design of a module, where it keeps the rules.
pub(crate) fn build<'a>(alloc: Global, parsed: &Module<'a>) -> Result<Netlist<'a>, FormFault>
    requires size { size (a_module parsed.now) < 2 ^ 32 }
    requires tree { IsTree (a_module parsed.now) }
    ensures rules { IfOk result (λ d. IsOfForm (a_module parsed.now)) }
    ensures design { IfOk result (λ d. IsDesignOf (a_module parsed.now) (design_of d)) }
    ensures not_of_form { IsErrOf result FormFault.NotOfForm → IsOfForm (a_module parsed.now) → ⊥ }
{
    let declared = match ordered(alloc, parsed) {
        Ok(found) => found,
        Err(fault) => return Err(fault),
    };
    let assigns = assigns(alloc, &parsed.assigns)?;
    let processes = processes(alloc, &parsed.processes)?;
    number(alloc, &declared, &assigns, &processes)
}
