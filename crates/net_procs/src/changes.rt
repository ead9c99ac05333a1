//! Strokes on the nodes of bits.
ghost use Rattle.std.specs.Prelude.{◌≡◌, ◌<◌, ◌≤◌, ℕ, true, All, length, slice_set, IfOk};
ghost use Rattle.net_words.specs.Builds.{Builds, AreThere};
ghost use Rattle.proc_values.specs.Runs as values;
ghost use Rattle.net_procs.specs.Laws.{AreBits};
ghost use Rattle.net_procs.specs.Runs as spec;
ghost use Rattle.net_procs.specs.Ready.{AreStrokes, IsStroke};

use crate::stroke::Stroke;
use net_gates::{GateFault, GateList, Node};
use net_words::mux;

/// Whether a bit is one of these, which are fewer than so many.
fn is_among(bits: &[u32], count: usize, bit: u32) -> bool
    requires { All (λ b. b < count) bits.now }
    ensures among { result ≡ values.is_among bits.now bit }
    ensures inside { result ≡ true → bit < count }
{
    for i in 0..bits.len() {
        if bits[i] == bit {
            return true;
        }
    }
    false
}

/// Gives a bit a node.
pub(crate) fn set_node(nodes: &mut [Node], place: usize, node: Node)
    requires { place < length nodes.old }
    ensures nodes { nodes.new ≡ slice_set nodes.old place node }
    ensures long { length nodes.new ≡ length nodes.old }
    ensures inside { (count : ℕ) → node < count → All (λ n. n < count) nodes.old → All (λ n. n < count) nodes.new }
{
    nodes[place] = node;
}

/// A bit gets a node where the stroke is hit.
#[tactic(auto, unfolding(crate::specs::Runs::changed_if))]
fn change_if(net: &mut GateList, stroke: Stroke, nodes: &mut [Node]) -> Result<(), GateFault>
    requires bit { stroke.bit < length nodes.old }
    requires stroke { IsStroke (length net.old) stroke }
    requires nodes { AreThere net.old nodes.old }
    ensures builds { Builds (λ _. nodes.new) (spec.changed_if stroke.hit stroke.bit stroke.value nodes.old) net.old result net.new }
    ensures long { length nodes.new ≡ length nodes.old }
    ensures inside { AreThere net.new nodes.new }
    ensures longer { length net.old ≤ length net.new }
{
    let place = stroke.bit as usize;
    match stroke.hit {
        None => {
            set_node(nodes, place, stroke.value);
            Ok(())
        }
        Some(hit) => {
            let node = mux(net, hit, stroke.value, nodes[place])?;
            set_node(nodes, place, node);
            Ok(())
        }
    }
}

/// A stroke on a bit of these.
#[tactic(auto, unfolding(crate::specs::Runs::changed))]
fn change(
    net: &mut GateList,
    bits: &[u32],
    stroke: Stroke,
    nodes: &mut [Node],
) -> Result<(), GateFault>
    requires bits { AreBits bits.now nodes.old }
    requires stroke { IsStroke (length net.old) stroke }
    requires nodes { AreThere net.old nodes.old }
    ensures builds { Builds (λ _. nodes.new) (spec.changed bits.now stroke nodes.old) net.old result net.new }
    ensures long { length nodes.new ≡ length nodes.old }
    ensures inside { AreThere net.new nodes.new }
    ensures longer { length net.old ≤ length net.new }
{
    if is_among(bits, nodes.len(), stroke.bit) {
        return change_if(net, stroke, nodes);
    }
    Ok(())
}

/// Strokes, one after the other.
pub(crate) fn strike(
    net: &mut GateList,
    bits: &[u32],
    strokes: &[Stroke],
    nodes: &mut [Node],
) -> Result<(), GateFault>
    requires bits { AreBits bits.now nodes.old }
    requires strokes { AreStrokes net.old strokes.now }
    requires nodes { AreThere net.old nodes.old }
    ensures builds { Builds (λ _. nodes.new) (spec.struck bits.now strokes.now nodes.old) net.old result net.new }
    ensures long { length nodes.new ≡ length nodes.old }
    ensures inside { AreThere net.new nodes.new }
    ensures longer { length net.old ≤ length net.new }
{
    for i in 0..strokes.len() {
        change(net, bits, strokes[i], nodes)?;
    }
    Ok(())
}
