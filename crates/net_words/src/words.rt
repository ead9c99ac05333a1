//! Words bit by bit, and over all their bits. Words stand with their least significant bit first.
ghost use Rattle.std.specs.Prelude.{◌≡◌, ◌<◌, ◌≤◌, length, IfOk};
ghost use Rattle.net_words.specs.Builds.{Builds, AreThere};
ghost use Rattle.net_words.specs.Words as spec;

use crate::bits::{Bitwise, bit, mux, put};
use net_gates::{GateFault, GateList, Node};
use net_view::Gate;
use std::alloc::Global;

/// Each bit's inverse.
pub fn inverted(alloc: Global, net: &mut GateList, word: &[Node]) -> Result<Vec<Node>, GateFault>
    requires { AreThere net.old word.now }
    ensures builds { Builds (λ w. w.items) (spec.inverted word.now) net.old result net.new }
    ensures width { IfOk result (λ w. length w.items ≡ length word.now) }
    ensures inside { IfOk result (λ w. AreThere net.new w.items) }
    ensures longer { length net.old ≤ length net.new }
{
    let mut made = Vec::new(alloc);
    for i in 0..word.len() {
        let n = put(net, Gate::Not(word[i]))?;
        made.push(n)?;
    }
    Ok(made)
}

/// An operation of each two bits.
pub fn each(
    alloc: Global,
    net: &mut GateList,
    op: Bitwise,
    a: &[Node],
    b: &[Node],
) -> Result<Vec<Node>, GateFault>
    requires width { length a.now ≡ length b.now }
    requires a { AreThere net.old a.now }
    requires b { AreThere net.old b.now }
    ensures builds { Builds (λ w. w.items) (spec.each op a.now b.now) net.old result net.new }
    ensures width { IfOk result (λ w. length w.items ≡ length a.now) }
    ensures inside { IfOk result (λ w. AreThere net.new w.items) }
    ensures longer { length net.old ≤ length net.new }
{
    let mut made = Vec::new(alloc);
    for i in 0..a.len() {
        let n = bit(net, op, a[i], b[i])?;
        made.push(n)?;
    }
    Ok(made)
}

/// Bit by bit `a` where `s` is 1, `b` where it is 0.
pub fn select(
    alloc: Global,
    net: &mut GateList,
    s: Node,
    a: &[Node],
    b: &[Node],
) -> Result<Vec<Node>, GateFault>
    requires width { length a.now ≡ length b.now }
    requires s { s < length net.old }
    requires a { AreThere net.old a.now }
    requires b { AreThere net.old b.now }
    ensures builds { Builds (λ w. w.items) (spec.select s a.now b.now) net.old result net.new }
    ensures width { IfOk result (λ w. length w.items ≡ length a.now) }
    ensures inside { IfOk result (λ w. AreThere net.new w.items) }
    ensures longer { length net.old ≤ length net.new }
{
    let mut made = Vec::new(alloc);
    for i in 0..a.len() {
        let n = mux(net, s, a[i], b[i])?;
        made.push(n)?;
    }
    Ok(made)
}
