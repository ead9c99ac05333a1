//! Comparisons of words, least significant bit first.
ghost use Rattle.std.specs.Prelude.{◌≡◌, ◌<◌, ◌≤◌, length, IfOk};
ghost use Rattle.net_words.specs.Builds.{Builds, AreThere};
ghost use Rattle.net_words.specs.Comparisons as spec;

use crate::bits::{Bitwise, put, xnor};
use crate::reductions::all;
use crate::words::each;
use net_gates::{GateFault, GateList, Node};
use net_view::Gate;
use std::alloc::Global;

/// `a == b`. Its inverse is `a != b`.
pub fn eq(alloc: Global, net: &mut GateList, a: &[Node], b: &[Node]) -> Result<Node, GateFault>
    requires width { length a.now ≡ length b.now }
    requires a { AreThere net.old a.now }
    requires b { AreThere net.old b.now }
    ensures builds { Builds (λ n. n) (spec.eq a.now b.now) net.old result net.new }
    ensures inside { IfOk result (λ n. n < length net.new) }
    ensures longer { length net.old ≤ length net.new }
{
    let same = each(alloc, net, Bitwise::Xnor, a, b)?;
    all(net, same.as_slice())
}

/// `a < b` of unsigned words.
pub fn lt(net: &mut GateList, a: &[Node], b: &[Node]) -> Result<Node, GateFault>
    requires width { length a.now ≡ length b.now }
    requires a { AreThere net.old a.now }
    requires b { AreThere net.old b.now }
    ensures builds { Builds (λ n. n) (spec.lt a.now b.now) net.old result net.new }
    ensures inside { IfOk result (λ n. n < length net.new) }
    ensures longer { length net.old ≤ length net.new }
{
    let zero = put(net, Gate::Const(false))?;
    lt_from(net, zero, a, b)
}

/// `a < b` of signed words.
pub fn lt_signed(
    alloc: Global,
    net: &mut GateList,
    a: &[Node],
    b: &[Node],
) -> Result<Node, GateFault>
    requires width { length a.now ≡ length b.now }
    requires a { AreThere net.old a.now }
    requires b { AreThere net.old b.now }
    ensures builds { Builds (λ n. n) (spec.lt_signed a.now b.now) net.old result net.new }
    ensures inside { IfOk result (λ n. n < length net.new) }
    ensures longer { length net.old ≤ length net.new }
{
    let left = top_inverted(alloc, net, a)?;
    let right = top_inverted(alloc, net, b)?;
    lt(net, left.as_slice(), right.as_slice())
}

/// The word with its top bit inverted.
fn top_inverted(alloc: Global, net: &mut GateList, word: &[Node]) -> Result<Vec<Node>, GateFault>
    requires { AreThere net.old word.now }
    ensures builds { Builds (λ w. w.items) (spec.top_inverted word.now) net.old result net.new }
    ensures width { IfOk result (λ w. length w.items ≡ length word.now) }
    ensures inside { IfOk result (λ w. AreThere net.new w.items) }
    ensures longer { length net.old ≤ length net.new }
{
    let mut made = Vec::from_slice(alloc, word)?;
    if word.is_empty() {
        return Ok(made);
    }
    let top = word.len() - 1;
    let n = put(net, Gate::Not(word[top]))?;
    made[top] = n;
    Ok(made)
}

/// Bit by bit upward, from what the bits below gave.
fn lt_from(net: &mut GateList, first: Node, a: &[Node], b: &[Node]) -> Result<Node, GateFault>
    requires width { length a.now ≡ length b.now }
    requires first { first < length net.old }
    requires a { AreThere net.old a.now }
    requires b { AreThere net.old b.now }
    ensures builds { Builds (λ n. n) (spec.lt_from first a.now b.now) net.old result net.new }
    ensures inside { IfOk result (λ n. n < length net.new) }
    ensures longer { length net.old ≤ length net.new }
{
    let mut less = first;
    for i in 0..a.len() {
        less = lt_bit(net, less, a[i], b[i])?;
    }
    Ok(less)
}

/// Less by this bit, or equal in it and less by those below it.
fn lt_bit(net: &mut GateList, so_far: Node, a: Node, b: Node) -> Result<Node, GateFault>
    requires so_far { so_far < length net.old }
    requires a { a < length net.old }
    requires b { b < length net.old }
    ensures builds { Builds (λ n. n) (spec.lt_bit so_far a b) net.old result net.new }
    ensures inside { IfOk result (λ n. n < length net.new) }
    ensures longer { length net.old ≤ length net.new }
{
    let other = put(net, Gate::Not(a))?;
    let less = put(net, Gate::And(other, b))?;
    let same = xnor(net, a, b)?;
    let kept = put(net, Gate::And(same, so_far))?;
    put(net, Gate::Or(less, kept))
}
