//! The sources that the data or the pin of some flop reads.

ghost use Rattle.std.specs.Prelude.{◌≡◌, ◌<◌, length, IfOk, IfSome, Some};
ghost use Rattle.std.specs.Option.{option_map};
ghost use Rattle.net_view.specs.View.{renumbered, Reads, IsGateAt};
ghost use Rattle.net_view.specs.Cone.{IsFanIn};
ghost use Rattle.net_view.specs.declared.gate.Gate.TheVariants.{Source};
ghost use Rattle.cons_bind.specs.Names.{net_of};
ghost use Rattle.cons_bind.specs.Claims.{IsReadSource};
ghost use Rattle.cons_bind.specs.Marks.{Marks};
ghost use Rattle.cons_bind.specs.Reading.{IsRootOf, IsRoot, IsReadBy, IsReadNode, Adds, AreUnmarked};

use net_view::{FlopNet, Gate, SrcKind};
use std::alloc::{AllocError, Global};

/// The gate of a node, by number.
fn gate_at<V: FlopNet>(view: &V, n: u32) -> Gate<V::Node, V::Src>
    requires { n < length (V.gates view.now) }
    ensures { IsGateAt (V.gates view.now) n (renumbered V.node_number V.source_number result) }
{
    let Some(node) = view.node(n) else {
        unreachable!();
    };
    view.gate(node)
}

/// Marks a node.
fn mark<V: FlopNet>(view: &V, node: V::Node, marks: &mut [bool])
    requires node { V.node_number node < length (V.gates view.now) }
    requires marks { length marks.old ≡ length (V.gates view.now) }
    ensures { Adds (λ k. k ≡ V.node_number node) marks.old marks.new }
{
    marks[view.index(node) as usize] = true;
}

/// Marks the nodes that a gate reads.
fn mark_fan_ins<V: FlopNet>(view: &V, gate: Gate<V::Node, V::Src>, marks: &mut [bool])
    requires reads { Reads (λ j. j < length (V.gates view.now)) (λ s. s < V.source_count view.now) (renumbered V.node_number V.source_number gate) }
    requires marks { length marks.old ≡ length (V.gates view.now) }
    ensures { Adds (IsFanIn (renumbered V.node_number V.source_number gate)) marks.old marks.new }
{
    match gate {
        Gate::Const(_) | Gate::Source(_) => {}
        Gate::Not(a) => mark(view, a, marks),
        Gate::And(a, b) | Gate::Or(a, b) | Gate::Xor(a, b) => {
            mark(view, a, marks);
            mark(view, b, marks);
        }
        Gate::Pick(c, a, b) => {
            mark(view, c, marks);
            mark(view, a, marks);
            mark(view, b, marks);
        }
        Gate::Lift(c, a, _) => {
            mark(view, c, marks);
            mark(view, a, marks);
        }
    }
}

/// Marks a node, if there is one.
fn mark_some<V: FlopNet>(view: &V, node: Option<V::Node>, marks: &mut [bool])
    requires node { IfSome (option_map V.node_number node) (λ n. n < length (V.gates view.now)) }
    requires marks { length marks.old ≡ length (V.gates view.now) }
    ensures { Adds (λ k. option_map V.node_number node ≡ Some k) marks.old marks.new }
{
    if let Some(node) = node {
        mark(view, node, marks);
    }
}

/// Marks the data and the pin of a flop, if the source is one.
fn mark_flop<V: FlopNet>(view: &V, source: V::Src, marks: &mut [bool])
    requires source { V.source_number source < V.source_count view.now }
    requires marks { length marks.old ≡ length (V.gates view.now) }
    ensures { Adds (IsRootOf (V.kinds view.now) (V.source_number source)) marks.old marks.new }
{
    let _bits = view.bits();
    let SrcKind::Flop(flop) = view.kind(source) else {
        return;
    };
    mark_some(view, flop.next, marks);
    mark_some(view, flop.pin, marks);
}

/// Marks the data and the pin of each flop.
fn mark_roots<V: FlopNet>(view: &V, marks: &mut [bool])
    requires { length marks.old ≡ length (V.gates view.now) }
    ensures { let net = net_of (V.gates view.now) (V.names view.now) (V.kinds view.now) (V.named_bits view.now) in
        Adds (IsRoot net) marks.old marks.new }
{
    let _bits = view.bits();
    'nodes: for n in 0..view.nodes() {
        if let Gate::Source(source) = gate_at(view, n) {
            mark_flop(view, source, marks);
        }
    }
}

/// Marks all that marked nodes read. Fan-ins have lower numbers, so one pass from the last node down is enough.
fn mark_cones<V: FlopNet>(view: &V, marks: &mut [bool])
    requires { length marks.old ≡ length (V.gates view.now) }
    ensures { Adds (IsReadBy (V.gates view.now) marks.old) marks.old marks.new }
{
    let mut n = view.nodes();
    'nodes: while n > 0 {
        n -= 1;
        if marks[n as usize] {
            mark_fan_ins(view, gate_at(view, n), marks);
        }
    }
}

/// Marks the source that a gate is, if it is one.
fn mark_source<V: FlopNet>(view: &V, gate: Gate<V::Node, V::Src>, marks: &mut [bool])
    requires reads { Reads (λ j. j < length (V.gates view.now)) (λ s. s < V.source_count view.now) (renumbered V.node_number V.source_number gate) }
    requires marks { length marks.old ≡ V.source_count view.now }
    ensures { Adds (λ s. renumbered V.node_number V.source_number gate ≡ Source s) marks.old marks.new }
{
    if let Gate::Source(source) = gate {
        marks[view.src_index(source) as usize] = true;
    }
}

/// Marks each node that the data or the pin of some flop reads, where none is marked yet.
fn mark_read_nodes<V: FlopNet>(view: &V, marks: &mut [bool])
    requires { length marks.old ≡ length (V.gates view.now) }
    ensures marks { let net = net_of (V.gates view.now) (V.names view.now) (V.kinds view.now) (V.named_bits view.now) in
        AreUnmarked marks.old → Marks (IsReadNode net) marks.new }
    ensures len { length marks.new ≡ length marks.old }
{
    mark_roots(view, marks);
    mark_cones(view, marks);
}

/// Marks each source that is a marked node, where none is marked yet.
fn mark_read_sources<V: FlopNet>(view: &V, nodes: &[bool], marks: &mut [bool])
    requires nodes { length nodes.now ≡ length (V.gates view.now) }
    requires marks { length marks.old ≡ V.source_count view.now }
    ensures marks { let net = net_of (V.gates view.now) (V.names view.now) (V.kinds view.now) (V.named_bits view.now) in
        Marks (IsReadNode net) nodes.now → AreUnmarked marks.old → Marks (IsReadSource net) marks.new }
    ensures len { length marks.new ≡ length marks.old }
{
    'nodes: for n in 0..view.nodes() {
        if nodes[n as usize] {
            mark_source(view, gate_at(view, n), marks);
        }
    }
}

/// A mark for each source that the data or the pin of some flop reads.
pub fn read_sources<V: FlopNet>(alloc: Global, view: &V) -> Result<Vec<bool>, AllocError>
    ensures marks { IfOk result (λ marks. let net = net_of (V.gates view.now) (V.names view.now) (V.kinds view.now) (V.named_bits view.now) in
        Marks (IsReadSource net) marks.items) }
    ensures len { IfOk result (λ marks. length marks.items ≡ V.source_count view.now) }
{
    let mut nodes = vec![in alloc; false; view.nodes() as usize]?;
    mark_read_nodes(view, &mut nodes);
    let mut sources = vec![in alloc; false; view.sources() as usize]?;
    mark_read_sources(view, &nodes, &mut sources);
    Ok(sources)
}
