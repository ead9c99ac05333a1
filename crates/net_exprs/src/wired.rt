//! What the names of a design stand for in a net.
ghost use Rattle.std.specs.Prelude.{◌≡◌, ℕ, ◌<◌, false, [], All, length, map, IfOk, IfErr};
ghost use Rattle.net_gates.specs.declared.fault.GateFault.TheVariants.{Memory};
ghost use Rattle.net_exprs.specs.Names.{node_at, wired_in, HasNodes};
ghost use Rattle.net_exprs.specs.Views.{view_of};

use design_form::{Bounds, Design};
use net_gates::{GateFault, Node};
use std::alloc::Global;

/// What a name stands for: its range, its sign and its nodes, least significant bit first.
#[derive(Drop)]
pub(crate) struct View {
    pub(crate) range: Bounds,
    pub(crate) signed: bool,
    pub(crate) nodes: Vec<Node>,
}

/// The node of a bit.
fn node_at(nodes: &[Node], number: u32) -> Node
    requires { number < length nodes.now }
    ensures { result ≡ node_at nodes.now number }
{
    nodes[number as usize]
}

/// The nodes of bits by their numbers.
fn nodes_of(alloc: Global, nodes: &[Node], numbers: &[u32]) -> Result<Vec<Node>, GateFault>
    requires { All (λ k. k < length nodes.now) numbers.now }
    ensures items { IfOk result (λ w. w.items ≡ map (node_at nodes.now) numbers.now) }
    ensures fault { IfErr result (λ fault. fault ≡ Memory) }
{
    let mut word = Vec::new(alloc);
    for number in numbers {
        word.push(node_at(nodes, *number))?;
    }
    Ok(word)
}

/// What a name stands for; one that is not declared has no nodes.
#[tactic(auto, unfolding(crate::specs::Names::wired_in, crate::specs::Names::wired_as))]
pub(crate) fn wired(
    alloc: Global,
    design: &Design,
    nodes: &[Node],
    name: &[u8],
) -> Result<View, GateFault>
    requires { HasNodes design.now nodes.now }
    ensures view { IfOk result (λ v. view_of v ≡ wired_in design.now nodes.now name.now) }
    ensures there { IfOk result (λ v. (count : ℕ) → All (λ n. n < count) nodes.now → All (λ n. n < count) v.nodes.items) }
    ensures fault { IfErr result (λ fault. fault ≡ Memory) }
{
    let Some(signal) = design.signal(name) else {
        return Ok(unknown(alloc));
    };
    let Some(numbers) = design.bits_of(name) else {
        return Ok(unknown(alloc));
    };
    Ok(View {
        range: signal.bounds(),
        signed: signal.signed,
        nodes: nodes_of(alloc, nodes, numbers)?,
    })
}

/// A name that is not declared.
fn unknown(alloc: Global) -> View
    ensures range { result.range ≡ record { msb = 0; lsb = 0 } }
    ensures signed { result.signed ≡ false }
    ensures nodes { result.nodes.items ≡ [] }
{
    View {
        range: Bounds { msb: 0, lsb: 0 },
        signed: false,
        nodes: Vec::new(alloc),
    }
}
