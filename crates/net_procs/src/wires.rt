//! The nodes of a design's bits, as a body changes them.
ghost use Rattle.std.specs.Prelude.{◌≡◌, ◌<◌, ◌≤◌, ℕ, All, length, IfOk, IfErr};
ghost use Rattle.net_gates.specs.declared.fault.GateFault.TheVariants.{Memory};
ghost use Rattle.net_words.specs.Builds.{Builds, AreThere};
ghost use Rattle.net_exprs.specs.Names.{node_at};
ghost use Rattle.net_procs.specs.Laws.{AreBits};
ghost use Rattle.net_procs.specs.Runs as spec;
ghost use Rattle.net_procs.specs.Ready.{run_of, Fits};

use crate::changes::set_node;
use crate::frame::Frame;
use net_gates::{GateFault, GateList, Node};
use net_words::select;
use std::alloc::Global;

/// A node for each bit of the design.
#[derive(Drop)]
pub(crate) struct Wires {
    /// As reads see them.
    pub(crate) seen: Vec<Node>,
    /// As they become.
    pub(crate) becomes: Vec<Node>,
}

/// The nodes of bits.
pub(crate) fn nodes_of(alloc: Global, nodes: &[Node], bits: &[u32]) -> Result<Vec<Node>, GateFault>
    requires { AreBits bits.now nodes.now }
    ensures items { IfOk result (λ w. w.items ≡ spec.nodes_of nodes.now bits.now) }
    ensures fault { IfErr result (λ fault. fault ≡ Memory) }
{
    let mut word = Vec::new(alloc);
    for bit in bits {
        word.push(nodes[*bit as usize])?;
    }
    Ok(word)
}

/// Nodes put back at bits.
pub(crate) fn put_back(bits: &[u32], word: &[Node], nodes: &mut [Node])
    requires bits { AreBits bits.now nodes.old }
    requires width { length word.now ≡ length bits.now }
    ensures nodes { nodes.new ≡ spec.scattered bits.now word.now nodes.old }
    ensures long { length nodes.new ≡ length nodes.old }
    ensures inside { (count : ℕ) → All (λ n. n < count) word.now → All (λ n. n < count) nodes.old → All (λ n. n < count) nodes.new }
{
    for i in 0..bits.len() {
        set_node(nodes, bits[i] as usize, word[i]);
    }
}

/// Each of these bits becomes the first node where the selection is 1, and its own where it is 0.
pub(crate) fn mixed(
    alloc: Global,
    net: &mut GateList,
    bits: &[u32],
    choice: Node,
    first: &[Node],
    nodes: &mut [Node],
) -> Result<(), GateFault>
    requires choice { choice < length net.old }
    requires first_bits { AreBits bits.now first.now }
    requires bits { AreBits bits.now nodes.old }
    requires first { AreThere net.old first.now }
    requires nodes { AreThere net.old nodes.old }
    ensures builds { Builds (λ _. nodes.new) (spec.mixed bits.now choice first.now nodes.old) net.old result net.new }
    ensures long { length nodes.new ≡ length nodes.old }
    ensures inside { AreThere net.new nodes.new }
    ensures longer { length net.old ≤ length net.new }
{
    let ones = nodes_of(alloc, first, bits)?;
    let others = nodes_of(alloc, nodes, bits)?;
    let word = select(alloc, net, choice, ones.as_slice(), others.as_slice())?;
    put_back(bits, word.as_slice(), nodes);
    Ok(())
}

/// The same of what reads see, at the bits at which they see it, and of what the bits become.
pub(crate) fn chosen(
    alloc: Global,
    net: &mut GateList,
    frame: &Frame<'_>,
    choice: Node,
    first: &Wires,
    other: Wires,
) -> Result<Wires, GateFault>
    requires choice { choice < length net.old }
    requires first { Fits frame.now net.old (run_of first.now) }
    requires other { Fits frame.now net.old (run_of other) }
    ensures builds { Builds run_of (spec.chosen frame.now.reads.now frame.now.bits.now choice (run_of first.now) (run_of other)) net.old result net.new }
    ensures fits { IfOk result (λ r. Fits frame.now net.new (run_of r)) }
    ensures longer { length net.old ≤ length net.new }
{
    let Wires {
        mut seen,
        mut becomes,
    } = other;
    let Frame { reads, bits, .. } = *frame;
    mixed(alloc, net, reads, choice, first.seen.as_slice(), &mut seen)?;
    let ones = first.becomes.as_slice();
    mixed(alloc, net, bits, choice, ones, &mut becomes)?;
    Ok(Wires { seen, becomes })
}

/// The same nodes again.
pub(crate) fn copy_of(alloc: Global, nodes: &[Node]) -> Result<Vec<Node>, GateFault>
    ensures items { IfOk result (λ w. w.items ≡ nodes.now) }
    ensures fault { IfErr result (λ fault. fault ≡ Memory) }
{
    let mut copy = Vec::new(alloc);
    copy.extend_from_slice(nodes)?;
    Ok(copy)
}

/// The same nodes again, for one side of a choice.
pub(crate) fn copied(alloc: Global, wires: &Wires) -> Result<Wires, GateFault>
    ensures run { IfOk result (λ r. run_of r ≡ run_of wires.now) }
    ensures fault { IfErr result (λ fault. fault ≡ Memory) }
{
    let seen = copy_of(alloc, wires.seen.as_slice())?;
    let becomes = copy_of(alloc, wires.becomes.as_slice())?;
    Ok(Wires { seen, becomes })
}
