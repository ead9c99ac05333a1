//! Building a net.
ghost use Rattle.std.specs.Prelude.{◌≡◌, ◌<◌, ◌≤◌, [], ◌∷◌, ◌++◌, ◌==◌, length, Contains, OnOk, OnErr, IfOk, IfErr, MatchResult};
ghost use Rattle.net_core.specs.declared.fault.NetFault.TheVariants.{Memory};
ghost use Rattle.net_core.specs.Folds.{folded, added, node_of, HasValue};
ghost use Rattle.net_core.specs.Net.{empty_net, with_gates, with_source, with_kind, with_bit, MayAdd, IsFit, ReadsNodes, ComesLast, most_nodes, IsRefusedAt, IsWhole};

use crate::bit_table::Place;
use crate::fault::NetFault;
use crate::flat::FlatNet;
use crate::folds::{Made, fold};
use crate::ids::{Node, Src, id_at, number_in, numbers, numbers_of_kind};
use crate::parts::Parts;
use net_view::{Gate, SrcKind};
use std::alloc::Global;
use std::marker::Model;

/// The most nodes that a net has.
const MOST_NODES: usize = 16_777_216;

/// A net that is being built. Nodes, sources and bits are numbered from 0 in the order in which they are added.
#[derive(Drop)]
pub struct NetBuilder {
    parts: Parts,
}

impl Model for NetBuilder {
    ghost use Rattle.net_core.specs.Net.{Net, IsDraft};

    ghost Value = { Net };

    ghost view = { λ builder. builder.parts };

    ghost invariant = { λ builder. IsDraft builder.parts };
}

/// Whether a net has the most nodes.
fn is_full(parts: &Parts) -> bool
    ensures { result ≡ (length parts.now.gates == most_nodes) }
{
    parts.gates().len() == MOST_NODES
}

/// The node that stands for a gate, once it is there.
fn put(parts: &mut Parts, made: Made) -> Result<Node, NetFault>
    requires small { length parts.old.gates < most_nodes }
    requires fits { IsFit (length parts.old.gates) made }
    ensures node { IfOk result (λ node. node ≡ node_of parts.old.gates made) }
    ensures ok { OnOk result (parts.new ≡ with_gates parts.old (added parts.old.gates made)) }
    ensures err { OnErr result (parts.new ≡ parts.old) }
    ensures fault { IfErr result (λ fault. fault ≡ Memory) }
{
    match made {
        Made::There(n) => Ok(id_at(parts.gates(), n)),
        Made::New(gate) => put_new(parts, gate),
    }
}

/// A new node.
fn put_new(parts: &mut Parts, gate: Gate<u32, u32>) -> Result<Node, NetFault>
    requires small { length parts.old.gates < most_nodes }
    ensures node { IfOk result (λ node. node ≡ length parts.old.gates) }
    ensures ok { OnOk result (parts.new ≡ with_gates parts.old (parts.old.gates ++ gate ∷ [])) }
    ensures err { OnErr result (parts.new ≡ parts.old) }
    ensures fault { IfErr result (λ fault. fault ≡ Memory) }
{
    let n = parts.gates().len() as u32;
    parts.put_gate(gate)?;
    Ok(id_at(parts.gates(), n))
}

/// The ids of a new source and its node.
fn put_source(parts: &mut Parts, name: &str) -> Result<(Src, Node), NetFault>
    requires small { length parts.old.gates < most_nodes }
    requires each_has_node { length parts.old.names ≤ length parts.old.gates }
    requires each_kind { length parts.old.kinds ≡ length parts.old.names }
    requires other { Contains parts.old.names name.now → ⊥ }
    ensures source { IfOk result (λ ids. ids.0 ≡ length parts.old.names) }
    ensures node { IfOk result (λ ids. ids.1 ≡ length parts.old.gates) }
    ensures ok { OnOk result (parts.new ≡ with_source parts.old name.now) }
    ensures err { OnErr result (parts.new ≡ parts.old) }
    ensures fault { IfErr result (λ fault. fault ≡ Memory) }
{
    let s = parts.kinds().len() as u32;
    let n = parts.gates().len() as u32;
    parts.put_source(name)?;
    Ok((id_at(parts.kinds(), s), id_at(parts.gates(), n)))
}

impl NetBuilder {
    /// No node, no source and no bit. It takes no memory yet.
    pub fn new(alloc: Global) -> NetBuilder
        ensures { result ≡ empty_net }
    {
        NetBuilder {
            parts: Parts::new(alloc),
        }
    }

    /// The next source, a port, and its node. At a fault the net is as it was.
    pub fn source(&mut self, name: &str) -> Result<(Src, Node), NetFault>
        requires { Contains self.old.names name.now → ⊥ }
        ensures source { IfOk result (λ ids. ids.0 ≡ length self.old.names) }
        ensures node { IfOk result (λ ids. ids.1 ≡ length self.old.gates) }
        ensures net { OnOk result (self.new ≡ with_source self.old name.now) }
        ensures inside { IfOk result (λ ids. ids.1 < length self.new.gates) }
        ensures grows { length self.old.gates ≤ length self.new.gates }
        ensures unchanged { OnErr result (self.new ≡ self.old) }
        ensures full { MatchResult result (λ _. length self.old.gates < most_nodes) (IsRefusedAt (length self.old.gates)) }
    {
        if is_full(&self.parts) {
            return Err(NetFault::Full);
        }
        put_source(&mut self.parts, name)
    }

    /// Gives a source its kind.
    pub fn kind(&mut self, s: Src, kind: SrcKind<Node>)
        requires source { s < length self.old.names }
        requires nodes { ReadsNodes (length self.old.gates) kind }
        ensures { self.new ≡ with_kind self.old s kind }
    {
        let kind = numbers_of_kind(self.parts.gates(), kind);
        self.parts.put_kind(s.number() as u32, kind);
    }

    /// A node that is worth what the gate is: a new one, or one that is there where the gate folds. At a fault the
    /// net is as it was.
    pub fn add(&mut self, gate: Gate<Node, Src>) -> Result<Node, NetFault>
        requires { MayAdd (length self.old.gates) gate }
        ensures node { IfOk result (λ node. node ≡ node_of self.old.gates (folded self.old.gates gate)) }
        ensures net { OnOk result (self.new ≡ with_gates self.old (added self.old.gates (folded self.old.gates gate))) }
        ensures inside { IfOk result (λ node. node < length self.new.gates) }
        ensures grows { length self.old.gates ≤ length self.new.gates }
        ensures value { IfOk result (λ node. HasValue self.new.gates node gate) }
        ensures unchanged { OnErr result (self.new ≡ self.old) }
        ensures full { MatchResult result (λ _. length self.old.gates < most_nodes) (IsRefusedAt (length self.old.gates)) }
    {
        if is_full(&self.parts) {
            return Err(NetFault::Full);
        }
        let gates = self.parts.gates();
        let made = fold(gates, numbers(gates, gate));
        put(&mut self.parts, made)
    }

    /// Names the next bit: its node, and the number of the bit that it copies. Without memory the net is as it was.
    pub fn bit(&mut self, name: &str, node: Node, root: u32) -> Result<(), NetFault>
        requires node { node < length self.old.gates }
        requires last { ComesLast self.old.bits name.now }
        requires few { length self.old.bits < 4294967295 }
        ensures net { OnOk result (self.new ≡ with_bit self.old (record { name = name.now; node = node; root = root })) }
        ensures unchanged { OnErr result (self.new ≡ self.old) }
        ensures fault { IfErr result (λ fault. fault ≡ Memory) }
    {
        let node = number_in(self.parts.gates(), node);
        self.parts.put_bit(name, Place { node, root })
    }

    /// The same net, finished. It takes no memory.
    pub fn finish(self) -> FlatNet
        requires { IsWhole self }
        ensures { result ≡ self }
    {
        FlatNet::of(self.parts)
    }
}
