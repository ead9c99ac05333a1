//! Two words of two bits, and values read in a state of them.
ghost use Rattle.std.specs.Prelude.{◌≡◌, length, IfOk};
ghost use Rattle.net_words.specs.Builds.{AreThere};

use net_gates::{GateFault, GateList, Node};
use net_view::Gate;
use rdc_tern::Tern;
use std::alloc::{AllocError, Global};

/// The two words, as leaves: bits 0 and 1, and bits 2 and 3.
pub(crate) fn leaves(alloc: Global) -> Result<(GateList, [Node; 2], [Node; 2]), GateFault>
    ensures a { IfOk result (λ r. AreThere r.0 r.1) }
    ensures b { IfOk result (λ r. AreThere r.0 r.2) }
{
    let mut net = GateList::new(alloc);
    let a0 = net.add(Gate::Source(0))?;
    let a1 = net.add(Gate::Source(1))?;
    let b0 = net.add(Gate::Source(2))?;
    let b1 = net.add(Gate::Source(3))?;
    Ok((net, [a0, a1], [b0, b1]))
}

/// The nodes of a word of two bits.
pub(crate) fn two(word: Vec<Node>) -> [Node; 2]
    requires { length word.items ≡ 2 }
    ensures { result ≡ word.items }
{
    [word[0], word[1]]
}

/// Whether nodes have these values in a state of the leaves.
pub(crate) fn are_worth(
    alloc: Global,
    net: &GateList,
    state: &[Tern; 4],
    nodes: &[Node],
    wanted: &[Tern],
) -> Result<bool, AllocError> {
    let values = values(alloc, net, state)?;
    if nodes.len() != wanted.len() {
        return Ok(false);
    }
    Ok(hold(values.as_slice(), nodes, wanted))
}

/// The values of the gates, from the first on.
fn values(alloc: Global, net: &GateList, state: &[Tern; 4]) -> Result<Vec<Tern>, AllocError> {
    let mut known = Vec::new(alloc);
    let gates = net.gates();
    for i in 0..gates.len() {
        let value = value(state, known.as_slice(), gates[i]);
        known.push(value)?;
    }
    Ok(known)
}

/// What a gate makes of the values before it.
fn value(state: &[Tern], known: &[Tern], gate: Gate<u32, u32>) -> Tern {
    match gate {
        Gate::Const(bit) => if bit { Tern::One } else { Tern::Zero },
        Gate::Source(s) => read(state, s),
        Gate::Not(a) => read(known, a).not(),
        Gate::And(a, b) => read(known, a).and(read(known, b)),
        Gate::Or(a, b) => read(known, a).or(read(known, b)),
        Gate::Xor(a, b) => read(known, a).xor(read(known, b)),
        Gate::Pick(_, _, _) | Gate::Lift(_, _, _) => Tern::Unsettled,
    }
}

/// The value at a place, X where there is none.
fn read(values: &[Tern], n: u32) -> Tern {
    values.get(n as usize).copied().unwrap_or(Tern::Unsettled)
}

/// Whether each of these nodes has its value.
fn hold(values: &[Tern], nodes: &[Node], wanted: &[Tern]) -> bool
    requires { length nodes.now ≡ length wanted.now }
{
    for i in 0..nodes.len() {
        if values.get(nodes[i].number() as usize).copied() != Some(wanted[i]) {
            return false;
        }
    }
    true
}
