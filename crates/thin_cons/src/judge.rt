//! Whether the roles meet what the design needs.

ghost use Rattle.std.specs.Prelude.{◌≡◌, ◌<◌, ◌↔◌, List, map, length, slice_index_or, false, IsTrue, IfOk};
ghost use Rattle.thin_form.specs.Formula.{Formula};
ghost use Rattle.thin_form.specs.Netlist.{IsLawful, formulas, formula_of, flop_of, design_of};
ghost use Rattle.thin_form.specs.NodeReads.{ReadsBelow};
ghost use Rattle.thin_cons.specs.Roles.{is_clock, reads_clock, IsMet, IsMetAt, AreMet, AreFlopsMet, AreWiresMet};

use crate::role::Role;
use std::alloc::{AllocError, Global};
use thin_form::{Bit, Flop, Kind, Netlist, Node};

/// Whether the role is a clock's.
fn clocks(role: Role) -> bool
    ensures { result ≡ is_clock role }
{
    match role {
        Role::Clock => true,
        Role::Free | Role::Reset(_) => false,
    }
}

/// Whether a clock stands in what a node computes, where the marks say it of the nodes before.
fn is_marked(roles: &[Role], marks: &[bool], node: Node) -> bool
    requires { ReadsBelow (length roles.now) (length marks.now) node }
    ensures { (before : List Formula) → marks.now ≡ map (reads_clock roles.now) before → result ≡ reads_clock roles.now (formula_of before node) }
{
    match node {
        Node::Source(n) => clocks(roles[n as usize]),
        Node::Not(a) => marks[a as usize],
        Node::And(a, b) => marks[a as usize] || marks[b as usize],
        Node::Or(a, b) => marks[a as usize] || marks[b as usize],
    }
}

/// For each node whether a clock stands in what it computes.
fn mark(alloc: Global, design: &Netlist, roles: &[Role]) -> Result<Vec<bool>, AllocError>
    requires lawful { IsLawful design.now }
    requires whole { length roles.now ≡ length design.now.sources }
    ensures { IfOk result (λ marks. marks.items ≡ map (reads_clock roles.now) (formulas design.now.nodes)) }
{
    let mut marks = Vec::new(alloc);
    for k in 0..design.nodes() {
        let marked = is_marked(roles, &marks, design.node(k));
        marks.push(marked)?;
    }
    Ok(marks)
}

/// Whether the roles meet a flop.
fn is_met(roles: &[Role], marks: &[bool], flop: Flop) -> bool
    requires clock { flop.clock < length roles.now }
    requires pin { flop.pin < length roles.now }
    requires node { flop.data < length marks.now }
    ensures { (all : List Formula) → marks.now ≡ map (reads_clock roles.now) all → IsTrue result ↔ IsMet roles.now (flop_of all flop) }
{
    roles[flop.clock as usize] == Role::Clock
        && roles[flop.pin as usize] == Role::Reset(flop.high)
        && !marks[flop.data as usize]
}

/// Whether the roles meet a source. They meet each that is no flop.
fn is_met_at(design: &Netlist, roles: &[Role], marks: &[bool], n: u32) -> bool
    requires lawful { IsLawful design.now }
    requires within { n < length design.now.sources }
    requires whole { length roles.now ≡ length design.now.sources }
    requires marked { marks.now ≡ map (reads_clock roles.now) (formulas design.now.nodes) }
    ensures { IsTrue result ↔ IsMetAt (design_of design.now) roles.now n }
{
    match design.kind(n) {
        Kind::Input => true,
        Kind::Register(flop) => is_met(roles, marks, flop),
    }
}

/// Whether the roles meet each flop of the design.
fn are_flops_met(design: &Netlist, roles: &[Role], marks: &[bool]) -> bool
    requires lawful { IsLawful design.now }
    requires whole { length roles.now ≡ length design.now.sources }
    requires marked { marks.now ≡ map (reads_clock roles.now) (formulas design.now.nodes) }
    ensures { IsTrue result ↔ AreFlopsMet (design_of design.now) roles.now }
{
    for n in 0..design.sources() {
        if !is_met_at(design, roles, marks, n) {
            return false;
        }
    }
    true
}

/// Whether a bit is no wire, or one without a mark.
fn is_wire_met(marks: &[bool], bit: &Bit) -> bool
    requires { bit.now.node < length marks.now }
    ensures { IsTrue result ↔ (IsTrue bit.now.wire → slice_index_or marks.now bit.now.node false ≡ false) }
{
    !bit.wire || !marks[bit.node as usize]
}

/// Whether no clock stands in a wire's formula.
fn are_wires_met(design: &Netlist, roles: &[Role], marks: &[bool]) -> bool
    requires lawful { IsLawful design.now }
    requires marked { marks.now ≡ map (reads_clock roles.now) (formulas design.now.nodes) }
    ensures { IsTrue result ↔ AreWiresMet (design_of design.now) roles.now }
{
    for b in 0..design.bits() {
        if !is_wire_met(marks, &design.bit(b)) {
            return false;
        }
    }
    true
}

/// Whether the roles meet the design.
pub fn are_met(alloc: Global, design: &Netlist, roles: &[Role]) -> Result<bool, AllocError>
    requires { length roles.now ≡ length design.now.sources }
    ensures { IfOk result (λ met. IsTrue met ↔ AreMet (design_of design.now) roles.now) }
{
    let _sources = design.sources();
    let marks = mark(alloc, design, roles)?;
    Ok(are_flops_met(design, roles, &marks) && are_wires_met(design, roles, &marks))
}
