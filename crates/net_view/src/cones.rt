//! Cones: what a node's logic reads.

ghost use Rattle.std.specs.Prelude.{◌≡◌, ◌↔◌, ◌⊎◌, ℕ, ◌+◌, ◌<◌, ◌≤◌, List, [], ◌∷◌, length, map, slice_get, Some, All, Contains, OnOk, IfOk, IsPermutation};
ghost use Rattle.std.specs.List.Sorted.{IsStrictlyIncreasing};
ghost use Rattle.std.specs.Ordering.{nat_cmp};
ghost use Rattle.std.specs.BinaryHeap.{heap_items, heap_len, IsHeap, KeepsHeap};
ghost use Rattle.net_view.specs.View.{Numbered, Reads, renumbered, IsGateAt};
ghost use Rattle.net_view.specs.Cone.{IsFanIn, InCones, ReadsSource, Lists};
ghost use Rattle.net_view.specs.Due.{Adds, IsEither, IsSourceAmong};

use crate::fault::ConeFault;
use crate::gate::Gate;
use crate::view::View;
use std::alloc::Global;
use std::collections::BinaryHeap;

/// The gate of a node, by number.
pub(crate) fn gate_at<V: View>(view: &V, n: u32) -> Gate<V::Node, V::Src>
    requires { n < length (V.gates view.now) }
    ensures { slice_get (V.gates view.now) n ≡ Some (renumbered V.node_number V.source_number result) }
{
    let Some(node) = view.node(n) else {
        unreachable!();
    };
    view.gate(node)
}

/// One more node to look at.
fn put<V: View>(view: &V, node: V::Node, due: &mut BinaryHeap<u32>) -> Result<(), ConeFault>
    requires { V.node_number node < length (V.gates view.now) }
    ensures count { OnOk result (heap_len due.new ≡ heap_len due.old + 1) }
    ensures heap { OnOk result (KeepsHeap nat_cmp (heap_items due.old) (heap_items due.new)) }
    ensures items { OnOk result (Adds (λ j. j ≡ V.node_number node) (heap_items due.old) (heap_items due.new)) }
{
    due.push(view.index(node))?;
    Ok(())
}

/// Two more nodes to look at.
fn put_two<V: View>(
    view: &V,
    a: V::Node,
    b: V::Node,
    due: &mut BinaryHeap<u32>,
) -> Result<(), ConeFault>
    requires a_is_in { V.node_number a < length (V.gates view.now) }
    requires b_is_in { V.node_number b < length (V.gates view.now) }
    ensures count { OnOk result (heap_len due.new ≡ heap_len due.old + 2) }
    ensures heap { OnOk result (KeepsHeap nat_cmp (heap_items due.old) (heap_items due.new)) }
    ensures items { OnOk result (Adds (IsEither (V.node_number a) (V.node_number b)) (heap_items due.old) (heap_items due.new)) }
{
    put(view, a, due)?;
    put(view, b, due)
}

/// The nodes that a gate reads, to look at.
fn put_fan_ins<V: View>(
    view: &V,
    gate: Gate<V::Node, V::Src>,
    due: &mut BinaryHeap<u32>,
) -> Result<(), ConeFault>
    requires reads { Reads (λ j. j < length (V.gates view.now)) (λ s. s < V.source_count view.now)
        (renumbered V.node_number V.source_number gate) }
    ensures count { OnOk result (heap_len due.new ≤ heap_len due.old + 3) }
    ensures heap { OnOk result (KeepsHeap nat_cmp (heap_items due.old) (heap_items due.new)) }
    ensures items { OnOk result (Adds (IsFanIn (renumbered V.node_number V.source_number gate)) (heap_items due.old) (heap_items due.new)) }
{
    match gate {
        Gate::Const(_) | Gate::Source(_) => Ok(()),
        Gate::Not(a) => put(view, a, due),
        Gate::And(a, b) => put_two(view, a, b, due),
        Gate::Or(a, b) => put_two(view, a, b, due),
        Gate::Xor(a, b) => put_two(view, a, b, due),
        Gate::Pick(c, a, b) => {
            put(view, c, due)?;
            put_two(view, a, b, due)
        }
        Gate::Lift(c, a, _) => put_two(view, c, a, due),
    }
}

/// The roots, to look at.
pub(crate) fn put_roots<V: View>(
    alloc: Global,
    view: &V,
    roots: &[V::Node],
) -> Result<BinaryHeap<u32>, ConeFault>
    requires { All (λ r. V.node_number r < length (V.gates view.now)) roots.now }
    ensures heap { IfOk result (λ due. IsHeap nat_cmp (heap_items due)) }
    ensures items { IfOk result (λ due. Adds (Contains (map V.node_number roots.now)) [] (heap_items due)) }
{
    let mut due = BinaryHeap::new(alloc);
    'roots: for root in roots {
        put(view, *root, &mut due)?;
    }
    Ok(due)
}

/// The numbers of the nodes in the cones of those that are due, ascending, each once.
///
/// Fan-ins have lower numbers, so from the greatest down each node comes after all that read it, and equal numbers come
/// next to each other.
pub(crate) fn descend<V: View>(
    alloc: Global,
    view: &V,
    mut due: BinaryHeap<u32>,
) -> Result<Vec<u32>, ConeFault>
    requires heap { IsHeap nat_cmp (heap_items due) }
    requires inside { All (λ n. n < length (V.gates view.now)) (heap_items due) }
    ensures nodes { IfOk result (λ found. Lists (InCones (V.gates view.now) (heap_items due)) found.items) }
    ensures inside { IfOk result (λ found. All (λ n. n < length (V.gates view.now)) found.items) }
{
    let mut found = Vec::new(alloc);
    let mut last = view.nodes();
    'due: while let Some(n) = due.pop() {
        if n < last {
            last = n;
            found.push(n)?;
            put_fan_ins(view, gate_at(view, n), &mut due)?;
        }
    }
    found.reverse();
    Ok(found)
}

/// The sources among some nodes, each with its number, in source order.
pub(crate) fn sources_of<V: View>(
    alloc: Global,
    view: &V,
    nodes: &[u32],
) -> Result<Vec<(u32, V::Src)>, ConeFault>
    requires inside { All (λ n. n < length (V.gates view.now)) nodes.now }
    requires rising { IsStrictlyIncreasing nodes.now }
    ensures numbers { IfOk result (λ found. All (λ p. p.0 ≡ V.source_number p.1) found.items) }
    ensures sources { IfOk result (λ found. Lists (IsSourceAmong (V.gates view.now) nodes.now) (map (λ p. p.0) found.items)) }
{
    let mut found = Vec::new(alloc);
    let _nodes = view.nodes();
    'nodes: for n in nodes {
        if let Gate::Source(s) = gate_at(view, *n) {
            found.push((view.src_index(s), s))?;
        }
    }
    found.sort_unstable_by_key(|pair| pair.0);
    Ok(found)
}

/// The sources without their numbers.
pub(crate) fn bare<S: Drop>(alloc: Global, sources: Vec<(u32, S)>) -> Result<Vec<S>, ConeFault>
    ensures { IfOk result (λ bare. bare.items ≡ map (λ p. p.1) sources.items) }
{
    Ok(sources.into_iter().map(|(_, s)| s).collect(alloc)?)
}

/// The sources that a node's logic reads, each once, in source order.
pub fn cone<V: View>(alloc: Global, view: &V, n: V::Node) -> Result<Vec<V::Src>, ConeFault>
    requires { V.node_number n < length (V.gates view.now) }
    ensures { IfOk result (λ found. Lists (ReadsSource (V.gates view.now) (V.node_number n)) (map V.source_number found.items)) }
{
    let mut due = BinaryHeap::new(alloc);
    put(view, n, &mut due)?;
    let nodes = descend(alloc, view, due)?;
    let sources = sources_of(alloc, view, &nodes)?;
    bare(alloc, sources)
}
