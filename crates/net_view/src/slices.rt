//! Slices: the cones of some nodes as a view of their own.

ghost use Rattle.std.specs.Prelude.{◌≡◌, ◌⊎◌, ℕ, ◌<◌, ◌≤◌, ◌^◌, List, length, map, slice_get, slice_index, All, Contains, IfOk, MatchOption};
ghost use Rattle.std.specs.List.Sorted.{IsStrictlyIncreasing};
ghost use Rattle.net_view.specs.View.{Numbered, Reads, renumbered, IsGateAt};
ghost use Rattle.net_view.specs.Due.{HoldsReads, Cuts};
ghost use Rattle.net_view.specs.Slice.{in_whole, IsSlice, KeepsValues};

use crate::cones::{bare, descend, gate_at, put_roots, sources_of};
use crate::fault::ConeFault;
use crate::gate::Gate;
use crate::slice_ids::{SliceNode, SliceSrc};
use crate::view::View;
use std::alloc::Global;
use std::marker::Model;

/// The nodes in the cones of some nodes of a view, in the view's order, with ids of their own. It costs what they cost.
#[derive(Drop)]
pub struct Slice<'a, V: View> {
    whole: &'a V,
    nodes: Vec<u32>,
    sources: Vec<V::Src>,
    gates: Vec<Gate<SliceNode<V::Node>, SliceSrc<V::Src>>>,
}

impl<'a, V: View> Model for Slice<'a, V> {
    ghost use Rattle.std.specs.Prelude.{map};
    ghost use Rattle.net_view.specs.View.{renumbered};
    ghost use Rattle.net_view.specs.Slice.{Cut, IsCut};

    ghost Value = { Cut };

    ghost view = { λ slice. record {
      whole = V.gates slice.whole.now;
      whole_sources = V.source_count slice.whole.now;
      gates = map (renumbered (λ n. n) (λ s. s)) slice.gates.items;
      nodes = slice.nodes.items;
      sources = map V.source_number slice.sources.items;
    } };

    ghost invariant = { λ slice. IsCut (record {
      whole = V.gates slice.whole.now;
      whole_sources = V.source_count slice.whole.now;
      gates = map (renumbered (λ n. n) (λ s. s)) slice.gates.items;
      nodes = slice.nodes.items;
      sources = map V.source_number slice.sources.items;
    }) };
}

/// The place of a number in an ascending list; None exactly where it isn't there.
fn place_of(numbers: &[u32], n: u32) -> Option<u32>
    requires small { length numbers.now < 2 ^ 32 }
    requires rising { IsStrictlyIncreasing numbers.now }
    ensures { MatchOption result (Contains numbers.now n → ⊥) (λ k. (k < length numbers.now) × (slice_index numbers.now k ≡ n)) }
{
    match numbers.binary_search(&n) {
        Ok(k) => Some(k as u32),
        Err(_) => None,
    }
}

/// The node here of a node of the whole that is here.
fn node_here<V: View>(whole: &V, node: V::Node, nodes: &[u32]) -> SliceNode<V::Node>
    requires small { length nodes.now < 2 ^ 32 }
    requires rising { IsStrictlyIncreasing nodes.now }
    requires in_whole { V.node_number node < length (V.gates whole.now) }
    requires here { Contains nodes.now (V.node_number node) }
    ensures inside { result < length nodes.now }
    ensures same { slice_index nodes.now result ≡ V.node_number node }
{
    match place_of(nodes, whole.index(node)) {
        Some(k) => SliceNode::of(k),
        None => unreachable!(),
    }
}

/// The source here of a source of the whole that is here.
fn source_here<V: View>(whole: &V, source: V::Src, sources: &[u32]) -> SliceSrc<V::Src>
    requires small { length sources.now < 2 ^ 32 }
    requires rising { IsStrictlyIncreasing sources.now }
    requires in_whole { V.source_number source < V.source_count whole.now }
    requires here { Contains sources.now (V.source_number source) }
    ensures inside { result < length sources.now }
    ensures same { slice_index sources.now result ≡ V.source_number source }
{
    match place_of(sources, whole.src_index(source)) {
        Some(k) => SliceSrc::of(k),
        None => unreachable!(),
    }
}

/// A gate of the whole, over the nodes and sources that are here.
fn gate_here<V: View>(
    whole: &V,
    gate: Gate<V::Node, V::Src>,
    nodes: &[u32],
    sources: &[u32],
) -> Gate<SliceNode<V::Node>, SliceSrc<V::Src>>
    requires nodes_small { length nodes.now < 2 ^ 32 }
    requires nodes_rising { IsStrictlyIncreasing nodes.now }
    requires sources_small { length sources.now < 2 ^ 32 }
    requires sources_rising { IsStrictlyIncreasing sources.now }
    requires in_whole { Reads (λ j. j < length (V.gates whole.now)) (λ s. s < V.source_count whole.now)
        (renumbered V.node_number V.source_number gate) }
    requires here { Reads (Contains nodes.now) (Contains sources.now) (renumbered V.node_number V.source_number gate) }
    ensures inside { Reads (λ j. j < length nodes.now) (λ s. s < length sources.now) (renumbered (λ n. n) (λ s. s) result) }
    ensures same { in_whole nodes.now sources.now (renumbered (λ n. n) (λ s. s) result) ≡ renumbered V.node_number V.source_number gate }
{
    match gate {
        Gate::Const(bit) => Gate::Const(bit),
        Gate::Source(s) => Gate::Source(source_here(whole, s, sources)),
        Gate::Not(a) => Gate::Not(node_here(whole, a, nodes)),
        Gate::And(a, b) => Gate::And(node_here(whole, a, nodes), node_here(whole, b, nodes)),
        Gate::Or(a, b) => Gate::Or(node_here(whole, a, nodes), node_here(whole, b, nodes)),
        Gate::Xor(a, b) => Gate::Xor(node_here(whole, a, nodes), node_here(whole, b, nodes)),
        Gate::Pick(c, a, b) => Gate::Pick(
            node_here(whole, c, nodes),
            node_here(whole, a, nodes),
            node_here(whole, b, nodes),
        ),
        Gate::Lift(c, a, reset) => Gate::Lift(
            node_here(whole, c, nodes),
            node_here(whole, a, nodes),
            reset,
        ),
    }
}

/// The gates of nodes that hold all that they read.
fn gates_here<V: View>(
    alloc: Global,
    whole: &V,
    nodes: &[u32],
    sources: &[u32],
) -> Result<Vec<Gate<SliceNode<V::Node>, SliceSrc<V::Src>>>, ConeFault>
    requires nodes_small { length nodes.now < 2 ^ 32 }
    requires nodes_rising { IsStrictlyIncreasing nodes.now }
    requires nodes_inside { All (λ n. n < length (V.gates whole.now)) nodes.now }
    requires sources_small { length sources.now < 2 ^ 32 }
    requires sources_rising { IsStrictlyIncreasing sources.now }
    requires holds { HoldsReads (V.gates whole.now) nodes.now sources.now }
    ensures { IfOk result (λ gates. Cuts (V.gates whole.now) nodes.now sources.now (map (renumbered (λ n. n) (λ s. s)) gates.items) (length nodes.now)) }
{
    let mut gates = Vec::new(alloc);
    let _nodes = whole.nodes();
    'nodes: for n in nodes {
        gates.push(gate_here(whole, gate_at(whole, *n), nodes, sources))?;
    }
    Ok(gates)
}

/// The numbers of sources.
fn numbers_of<S: Copy>(alloc: Global, sources: &[(u32, S)]) -> Result<Vec<u32>, ConeFault>
    ensures { IfOk result (λ numbers. numbers.items ≡ map (λ p. p.0) sources.now) }
{
    Ok(sources.iter().map(|p| p.0).collect(alloc)?)
}

impl<'a, V: View> View for Slice<'a, V> {
    ghost use Rattle.std.specs.Prelude.{length};

    type Node = SliceNode<V::Node>;

    type Src = SliceSrc<V::Src>;

    ghost gates = { λ slice. slice.gates };

    ghost source_count = { λ slice. length slice.sources };

    ghost node_number = { λ n. n };

    ghost source_number = { λ s. s };

    fn nodes(&self) -> u32 {
        self.gates.len() as u32
    }

    fn node(&self, n: u32) -> Option<SliceNode<V::Node>> {
        if n < self.nodes() {
            Some(SliceNode::of(n))
        } else {
            None
        }
    }

    fn index(&self, n: SliceNode<V::Node>) -> u32 {
        n.number()
    }

    fn sources(&self) -> u32 {
        self.sources.len() as u32
    }

    fn src_index(&self, s: SliceSrc<V::Src>) -> u32 {
        s.number()
    }

    fn gate(&self, n: SliceNode<V::Node>) -> Gate<SliceNode<V::Node>, SliceSrc<V::Src>> {
        self.gates[n.number() as usize]
    }
}

impl<'a, V: View> Slice<'a, V> {
    /// The cones of the roots.
    pub fn new(alloc: Global, whole: &'a V, roots: &[V::Node]) -> Result<Slice<'a, V>, ConeFault>
        requires { All (λ r. V.node_number r < length (V.gates whole.now)) roots.now }
        ensures slice { IfOk result (λ slice. IsSlice (V.gates whole.now) (V.source_count whole.now) (map V.node_number roots.now) slice) }
        ensures values { IfOk result (λ slice. KeepsValues slice) }
        ensures roots { IfOk result (λ slice. All (λ r. Contains slice.nodes (V.node_number r)) roots.now) }
    {
        let (_nodes, _sources) = (whole.nodes(), whole.sources());
        let due = put_roots(alloc, whole, roots)?;
        let nodes = descend(alloc, whole, due)?;
        let read = sources_of(alloc, whole, &nodes)?;
        let numbers = numbers_of(alloc, &read)?;
        let gates = gates_here(alloc, whole, &nodes, &numbers)?;
        let sources = bare(alloc, read)?;
        Ok(Slice {
            whole,
            nodes,
            sources,
            gates,
        })
    }

    /// The node of the whole view that a node is.
    pub fn whole_node(&self, n: SliceNode<V::Node>) -> V::Node
        requires { n < length self.now.gates }
        ensures inside { V.node_number result < length self.now.whole }
        ensures same { V.node_number result ≡ slice_index self.now.nodes n }
    {
        let Some(node) = self.whole.node(self.nodes[n.number() as usize]) else {
            unreachable!();
        };
        node
    }

    /// The source of the whole view that a source is.
    pub fn whole_source(&self, s: SliceSrc<V::Src>) -> V::Src
        requires { s < length self.now.sources }
        ensures inside { V.source_number result < self.now.whole_sources }
        ensures same { V.source_number result ≡ slice_index self.now.sources s }
    {
        self.sources[s.number() as usize]
    }

    /// The node that a node of the whole view is here; None exactly where it is in no cone of a root.
    pub fn find_node(&self, n: V::Node) -> Option<SliceNode<V::Node>>
        requires { V.node_number n < length self.now.whole }
        ensures { MatchOption result (Contains self.now.nodes (V.node_number n) → ⊥)
            (λ k. (k < length self.now.gates) × (slice_index self.now.nodes k ≡ V.node_number n)) }
    {
        match place_of(&self.nodes, self.whole.index(n)) {
            Some(k) => Some(SliceNode::of(k)),
            None => None,
        }
    }
}
