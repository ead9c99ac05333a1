//! The list, and its nodes.
ghost use Rattle.std.specs.Prelude.{◌≡◌, ◌<◌, ◌≤◌, ◌^◌, [], ◌∷◌, ◌++◌, length, OnOk, OnErr, IfOk, MatchResult};
ghost use Rattle.net_gates.specs.Gates.{MayAdd, IsRefusedAt, IsGateList, most_nodes};

use crate::fault::GateFault;
use net_view::Gate;
use rdc_ids::{Id, IdSlice};
use std::alloc::Global;
use std::marker::Model;

/// The most gates of a list.
const MOST_NODES: usize = 16_777_216;

/// The tag of a node's id. It is never made.
pub struct NodeTag;

/// A gate of a list, by its number.
pub type Node = Id<NodeTag>;

/// Gates, numbered from 0 in the order in which they are added.
#[derive(Drop)]
pub struct GateList {
    gates: Vec<Gate<u32, u32>>,
}

impl Model for GateList {
    ghost use Rattle.std.specs.Prelude.{List};
    ghost use Rattle.net_view.specs.View.{Numbered};
    ghost use Rattle.net_gates.specs.Gates.{IsGateList};

    ghost Value = { List Numbered };

    ghost view = { λ list. list.gates.items };

    ghost invariant = { λ list. IsGateList list.gates.items };
}

/// The gate over the numbers of its nodes.
fn numbers(gate: Gate<Node, u32>, count: usize) -> Gate<u32, u32>
    requires small { count ≤ most_nodes }
    requires there { MayAdd count gate }
    ensures { result ≡ gate }
{
    match gate {
        Gate::Const(bit) => Gate::Const(bit),
        Gate::Source(bit) => Gate::Source(bit),
        Gate::Not(a) => Gate::Not(a.number() as u32),
        Gate::And(a, b) => Gate::And(a.number() as u32, b.number() as u32),
        Gate::Or(a, b) => Gate::Or(a.number() as u32, b.number() as u32),
        Gate::Xor(a, b) => Gate::Xor(a.number() as u32, b.number() as u32),
        Gate::Pick(_, _, _) | Gate::Lift(_, _, _) => unreachable!(),
    }
}

/// One more gate, and its node.
fn put(gates: &mut Vec<Gate<u32, u32>>, gate: Gate<u32, u32>) -> Result<Node, GateFault>
    requires { length gates.old.items ≤ most_nodes }
    ensures node { IfOk result (λ node. node ≡ length gates.old.items) }
    ensures ok { OnOk result (gates.new.items ≡ gates.old.items ++ gate ∷ []) }
    ensures err { OnErr result (gates.new.items ≡ gates.old.items) }
    ensures full { MatchResult result (λ _. length gates.old.items < most_nodes) (IsRefusedAt (length gates.old.items)) }
{
    let n = gates.len();
    if n == MOST_NODES {
        return Err(GateFault::Full);
    }
    gates.push(gate)?;
    let Some(node) = IdSlice::<NodeTag, Gate<u32, u32>>::new(gates.as_slice()).try_id(n as u64)
    else {
        unreachable!();
    };
    Ok(node)
}

impl GateList {
    /// No gate. It takes no memory yet.
    pub fn new(alloc: Global) -> GateList
        ensures { result ≡ [] }
    {
        GateList {
            gates: Vec::new(alloc),
        }
    }

    /// One more gate, and its node, which is always new. At a fault the list is as it was.
    pub fn add(&mut self, gate: Gate<Node, u32>) -> Result<Node, GateFault>
        requires { MayAdd (length self.old) gate }
        ensures node { IfOk result (λ node. node ≡ length self.old) }
        ensures gates { OnOk result (self.new ≡ self.old ++ gate ∷ []) }
        ensures unchanged { OnErr result (self.new ≡ self.old) }
        ensures full { MatchResult result (λ _. length self.old < most_nodes) (IsRefusedAt (length self.old)) }
        ensures inside { IfOk result (λ node. node < length self.new) }
        ensures grows { length self.old ≤ length self.new }
    {
        let gate = numbers(gate, self.gates.len());
        put(&mut self.gates, gate)
    }

    /// The gates by number, each over nodes before it.
    pub fn gates(&self) -> &[Gate<u32, u32>]
        ensures gates { result.now ≡ self.now }
        ensures lawful { IsGateList self.now }
    {
        self.gates.as_slice()
    }

    /// How many gates there are.
    pub fn len(&self) -> u32
        ensures { result ≡ length self.now }
    {
        self.gates.len() as u32
    }
}
