//! Products of words, least significant bit first.
ghost use Rattle.std.specs.Prelude.{◌≡◌, ◌<◌, ◌≤◌, length, IfOk};
ghost use Rattle.net_words.specs.Builds.{Builds, AreThere};
ghost use Rattle.net_words.specs.Products as spec;

use crate::bits::{Bitwise, put};
use crate::shifts::raise;
use crate::sums::{repeated, sum};
use crate::words::each;
use net_gates::{GateFault, GateList, Node};
use net_view::Gate;
use std::alloc::Global;

/// `a * b`, cut to the width of `a`.
pub fn mul(
    alloc: Global,
    net: &mut GateList,
    a: &[Node],
    b: &[Node],
) -> Result<Vec<Node>, GateFault>
    requires a { AreThere net.old a.now }
    requires b { AreThere net.old b.now }
    ensures builds { Builds (λ w. w.items) (spec.mul a.now b.now) net.old result net.new }
    ensures width { IfOk result (λ w. length w.items ≡ length a.now) }
    ensures inside { IfOk result (λ w. AreThere net.new w.items) }
    ensures longer { length net.old ≤ length net.new }
{
    let low = put(net, Gate::Const(false))?;
    let zeros = repeated(alloc, low, a.len())?;
    add_rows(alloc, net, low, zeros, a, b)
}

/// Adds the first word once for each bit of the second, moved up by the bit's number.
fn add_rows(
    alloc: Global,
    net: &mut GateList,
    low: Node,
    first: Vec<Node>,
    a: &[Node],
    b: &[Node],
) -> Result<Vec<Node>, GateFault>
    requires width { length first.items ≡ length a.now }
    requires low { low < length net.old }
    requires first { AreThere net.old first.items }
    requires a { AreThere net.old a.now }
    requires b { AreThere net.old b.now }
    ensures builds { Builds (λ w. w.items) (spec.rows low first.items a.now 0 b.now) net.old result net.new }
    ensures width { IfOk result (λ w. length w.items ≡ length a.now) }
    ensures inside { IfOk result (λ w. AreThere net.new w.items) }
    ensures longer { length net.old ≤ length net.new }
{
    let mut total = first;
    for i in 0..b.len() {
        total = add_row(alloc, net, low, i, b[i], total.as_slice(), a)?;
    }
    Ok(total)
}

/// Adds a word that is moved up by places, each bit AND one bit.
fn add_row(
    alloc: Global,
    net: &mut GateList,
    low: Node,
    places: usize,
    bit: Node,
    total: &[Node],
    a: &[Node],
) -> Result<Vec<Node>, GateFault>
    requires width { length total.now ≡ length a.now }
    requires low { low < length net.old }
    requires bit { bit < length net.old }
    requires total { AreThere net.old total.now }
    requires a { AreThere net.old a.now }
    ensures builds { Builds (λ w. w.items) (spec.row low places bit total.now a.now) net.old result net.new }
    ensures width { IfOk result (λ w. length w.items ≡ length a.now) }
    ensures inside { IfOk result (λ w. AreThere net.new w.items) }
    ensures longer { length net.old ≤ length net.new }
{
    let moved = raise(alloc, low, places, a)?;
    let mask = repeated(alloc, bit, a.len())?;
    let part = each(alloc, net, Bitwise::And, moved.as_slice(), mask.as_slice())?;
    sum(alloc, net, low, total, part.as_slice())
}
