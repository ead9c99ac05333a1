//! Sums and differences of words, least significant bit first.
ghost use Rattle.std.specs.Prelude.{◌≡◌, ◌<◌, ◌≤◌, length, replicate, IfOk, IfErr};
ghost use Rattle.net_gates.specs.declared.fault.GateFault.TheVariants.{Memory};
ghost use Rattle.net_words.specs.Builds.{Builds, AreThere};
ghost use Rattle.net_words.specs.Sums as spec;

use crate::bits::put;
use crate::words::inverted;
use net_gates::{GateFault, GateList, Node};
use net_view::Gate;
use std::alloc::Global;

/// `a + b`, cut to their width.
pub fn add(
    alloc: Global,
    net: &mut GateList,
    a: &[Node],
    b: &[Node],
) -> Result<Vec<Node>, GateFault>
    requires width { length a.now ≡ length b.now }
    requires a { AreThere net.old a.now }
    requires b { AreThere net.old b.now }
    ensures builds { Builds (λ w. w.items) (spec.add a.now b.now) net.old result net.new }
    ensures width { IfOk result (λ w. length w.items ≡ length a.now) }
    ensures inside { IfOk result (λ w. AreThere net.new w.items) }
    ensures longer { length net.old ≤ length net.new }
{
    let carry = put(net, Gate::Const(false))?;
    sum(alloc, net, carry, a, b)
}

/// `a - b`, cut to their width: `a + ~b` with a first carry of 1.
pub fn sub(
    alloc: Global,
    net: &mut GateList,
    a: &[Node],
    b: &[Node],
) -> Result<Vec<Node>, GateFault>
    requires width { length a.now ≡ length b.now }
    requires a { AreThere net.old a.now }
    requires b { AreThere net.old b.now }
    ensures builds { Builds (λ w. w.items) (spec.sub a.now b.now) net.old result net.new }
    ensures width { IfOk result (λ w. length w.items ≡ length a.now) }
    ensures inside { IfOk result (λ w. AreThere net.new w.items) }
    ensures longer { length net.old ≤ length net.new }
{
    let other = inverted(alloc, net, b)?;
    let carry = put(net, Gate::Const(true))?;
    sum(alloc, net, carry, a, other.as_slice())
}

/// `-a`: `0 - a`.
pub fn neg(alloc: Global, net: &mut GateList, a: &[Node]) -> Result<Vec<Node>, GateFault>
    requires { AreThere net.old a.now }
    ensures builds { Builds (λ w. w.items) (spec.neg a.now) net.old result net.new }
    ensures width { IfOk result (λ w. length w.items ≡ length a.now) }
    ensures inside { IfOk result (λ w. AreThere net.new w.items) }
    ensures longer { length net.old ≤ length net.new }
{
    let zero = put(net, Gate::Const(false))?;
    let zeros = repeated(alloc, zero, a.len())?;
    sub(alloc, net, zeros.as_slice(), a)
}

/// A word whose bits are all one node.
pub(crate) fn repeated(alloc: Global, node: Node, count: usize) -> Result<Vec<Node>, GateFault>
    ensures items { IfOk result (λ w. w.items ≡ replicate count node) }
    ensures fault { IfErr result (λ fault. fault ≡ Memory) }
{
    let mut word = Vec::new(alloc);
    for i in 0..count {
        word.push(node)?;
    }
    Ok(word)
}

/// The bits of a sum from one carry on.
pub(crate) fn sum(
    alloc: Global,
    net: &mut GateList,
    first: Node,
    a: &[Node],
    b: &[Node],
) -> Result<Vec<Node>, GateFault>
    requires width { length a.now ≡ length b.now }
    requires first { first < length net.old }
    requires a { AreThere net.old a.now }
    requires b { AreThere net.old b.now }
    ensures builds { Builds (λ w. w.items) (spec.sum first a.now b.now) net.old result net.new }
    ensures width { IfOk result (λ w. length w.items ≡ length a.now) }
    ensures inside { IfOk result (λ w. AreThere net.new w.items) }
    ensures longer { length net.old ≤ length net.new }
{
    let mut made = Vec::new(alloc);
    let mut carry = first;
    for i in 0..a.len() {
        let n = full_adder(net, i + 1 < a.len(), carry, a[i], b[i])?;
        made.push(n.0)?;
        carry = n.1;
    }
    Ok(made)
}

/// A bit of a sum, and the carry into the next, if there is one.
fn full_adder(
    net: &mut GateList,
    more: bool,
    c: Node,
    a: Node,
    b: Node,
) -> Result<(Node, Node), GateFault>
    requires c { c < length net.old }
    requires a { a < length net.old }
    requires b { b < length net.old }
    ensures builds { Builds (λ p. p) (spec.full_adder more c a b) net.old result net.new }
    ensures bit { IfOk result (λ p. p.0 < length net.new) }
    ensures carry { IfOk result (λ p. p.1 < length net.new) }
    ensures longer { length net.old ≤ length net.new }
{
    let differs = put(net, Gate::Xor(a, b))?;
    let bit = put(net, Gate::Xor(differs, c))?;
    let carry = carry_if(net, more, c, a, b, differs)?;
    Ok((bit, carry))
}

/// The carry into the next bit, if there is one.
fn carry_if(
    net: &mut GateList,
    more: bool,
    c: Node,
    a: Node,
    b: Node,
    differs: Node,
) -> Result<Node, GateFault>
    requires c { c < length net.old }
    requires a { a < length net.old }
    requires b { b < length net.old }
    requires differs { differs < length net.old }
    ensures builds { Builds (λ n. n) (spec.carry_if more c a b differs) net.old result net.new }
    ensures inside { IfOk result (λ n. n < length net.new) }
    ensures longer { length net.old ≤ length net.new }
{
    if more {
        carry_from(net, c, a, b, differs)
    } else {
        Ok(c)
    }
}

/// `(a & b) | (c & differs)`
fn carry_from(
    net: &mut GateList,
    c: Node,
    a: Node,
    b: Node,
    differs: Node,
) -> Result<Node, GateFault>
    requires c { c < length net.old }
    requires a { a < length net.old }
    requires b { b < length net.old }
    requires differs { differs < length net.old }
    ensures builds { Builds (λ n. n) (spec.carry_from c a b differs) net.old result net.new }
    ensures inside { IfOk result (λ n. n < length net.new) }
    ensures longer { length net.old ≤ length net.new }
{
    let both = put(net, Gate::And(a, b))?;
    let passed = put(net, Gate::And(c, differs))?;
    put(net, Gate::Or(both, passed))
}
