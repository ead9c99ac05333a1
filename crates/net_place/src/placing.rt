//! Drawn gates placed in a net, one by one.

ghost use Rattle.std.specs.Prelude.{◌≡◌, ℕ, ◌+◌, ◌-◌, ◌<◌, ◌≤◌, [], None, length, All, IfOk, slice_get, replicate};
ghost use Rattle.net_view.specs.View.{IsGateAt};
ghost use Rattle.net_core.specs.Net.{with_gates};
ghost use Rattle.net_order.specs.Order.{reads, IsInOrder};
ghost use Rattle.net_place.specs.Places.{number_at, leaf_at, leaf_of, made, placed};
ghost use Rattle.net_place.specs.Ready.{IsPlaced, IsLeafPlaced, AreRooted, AreLeaves, ReadsPlaced, Made, Placed};

use net_core::{NetBuilder, NetFault, Node};
use net_gates::GateList;
use net_view::Gate;
use std::alloc::{AllocError, Global};

/// The node of a drawn gate that stands.
fn node_at(places: &[Option<Node>], k: u32) -> Node
    requires { (count : ℕ) × IsPlaced count places.now k }
    ensures { result ≡ number_at places.now k }
{
    let Some(node) = places[k as usize] else {
        unreachable!();
    };
    node
}

/// The node of a leaf.
fn leaf(places: &[Option<Node>], roots: &[Option<u32>], sources: &[Node], b: u32) -> Node
    requires { (count : ℕ) × IsLeafPlaced count sources.now places.now (b - length roots.now) (slice_get roots.now b) }
    ensures { result ≡ leaf_at roots.now sources.now places.now b }
{
    match roots.get(b as usize) {
        Some(Some(root)) => node_at(places, *root),
        Some(None) => unreachable!(),
        None => sources[b as usize - roots.len()],
    }
}

/// The node of a drawn gate, where what it reads stands.
fn stand(
    net: &mut NetBuilder,
    places: &[Option<Node>],
    roots: &[Option<u32>],
    sources: &[Node],
    gate: Gate<u32, u32>,
) -> Result<Node, NetFault>
    requires reads { ReadsPlaced (length net.old.gates) roots.now sources.now places.now gate }
    requires sources { All (λ n. n < length net.old.gates) sources.now }
    ensures made { Made (made roots.now sources.now (record { gates = net.old.gates; places = places.now }) gate) net.new.gates result }
    ensures net { net.new ≡ with_gates net.old net.new.gates }
    ensures inside { IfOk result (λ node. node < length net.new.gates) }
    ensures grows { length net.old.gates ≤ length net.new.gates }
{
    match gate {
        Gate::Source(b) => Ok(leaf(places, roots, sources, b)),
        Gate::Const(bit) => net.add(Gate::Const(bit)),
        Gate::Not(a) => net.add(Gate::Not(node_at(places, a))),
        Gate::And(a, b) => net.add(Gate::And(node_at(places, a), node_at(places, b))),
        Gate::Or(a, b) => net.add(Gate::Or(node_at(places, a), node_at(places, b))),
        Gate::Xor(a, b) => net.add(Gate::Xor(node_at(places, a), node_at(places, b))),
        Gate::Pick(_, _, _) | Gate::Lift(_, _, _) => unreachable!(),
    }
}

/// So many gates that stand nowhere yet.
fn nowhere(alloc: Global, count: usize) -> Result<Vec<Option<Node>>, AllocError>
    ensures { IfOk result (λ places. places.items ≡ replicate count None) }
{
    let mut places = Vec::new(alloc);
    'gates: for _gate in 0..count {
        places.push(None)?;
    }
    Ok(places)
}

/// Where drawn gates stand: the node of each gate of the order.
///
/// `roots` has the root of each bit, `sources` the node of each source. `Full` where the net is full before the last gate.
pub fn place(
    alloc: Global,
    net: &mut NetBuilder,
    gates: &GateList,
    roots: &[Option<u32>],
    sources: &[Node],
    order: &[u32],
) -> Result<Vec<Option<Node>>, NetFault>
    requires roots { AreRooted (length gates.now) roots.now }
    requires leaves { AreLeaves (length roots.now + length sources.now) gates.now }
    requires sources { All (λ n. n < length net.old.gates) sources.now }
    requires inside { All (λ k. k < length gates.now) order.now }
    requires ready { IsInOrder (reads gates.now roots.now) [] order.now }
    ensures placed { Placed (λ places. places.items) (placed gates.now roots.now sources.now order.now (record { gates = net.old.gates; places = replicate (length gates.now) None })) net.new.gates result }
    ensures net { net.new ≡ with_gates net.old net.new.gates }
    ensures stand { IfOk result (λ places. All (IsPlaced (length net.new.gates) places.items) order.now) }
{
    let gates = gates.gates();
    let mut places = nowhere(alloc, gates.len())?;
    'gates: for i in 0..order.len() {
        let k = order[i] as usize;
        let node = stand(net, &places, roots, sources, gates[k])?;
        places[k] = Some(node);
    }
    Ok(places)
}
