//! Selects of a name's nodes between constants.
ghost use Rattle.std.specs.Prelude.{◌≡◌, ◌<◌, ◌≤◌, ◌^◌, length, IfOk, IfErr, IfSome};
ghost use Rattle.design_form.specs.Selects.{part_width};
ghost use Rattle.net_gates.specs.declared.fault.GateFault.TheVariants.{Memory};
ghost use Rattle.net_words.specs.Builds.{Builds, AreThere};
ghost use Rattle.net_exprs.specs.Selects as spec;

use crate::sizes::possible;
use design_form::Bounds;
use net_gates::{GateFault, GateList, Node};
use net_view::Gate;
use net_words::put;
use std::alloc::Global;
use vlog_const::Whole;

/// The node that stands `a - b` places up, if there is one.
pub(crate) fn bit_at(word: &[Node], a: u128, b: u128) -> Option<Node>
    ensures { result ≡ spec.bit_at word.now a b }
{
    if b <= a && a - b < word.len() as u128 {
        return Some(word[(a - b) as usize]);
    }
    None
}

/// A node, or a constant 0.
#[tactic(auto, unfolding(crate::specs::Selects::node_or_0))]
fn node_or_0(net: &mut GateList, node: Option<Node>) -> Result<Node, GateFault>
    requires { IfSome node (λ n. n < length net.old) }
    ensures builds { Builds (λ n. n) (spec.node_or_0 node) net.old result net.new }
    ensures inside { IfOk result (λ n. n < length net.new) }
    ensures longer { length net.old ≤ length net.new }
{
    match node {
        Some(node) => Ok(node),
        None => put(net, Gate::Const(false)),
    }
}

/// How many indices stand from `first` to `second` in the direction of the range.
#[tactic(auto, unfolding(design_form::specs::Selects::part_width))]
pub(crate) fn part_width(range: Bounds, first: Whole, second: Whole) -> Result<usize, GateFault>
    ensures value { IfOk result (λ n. n ≡ part_width range first second) }
    ensures bound { IfOk result (λ n. n < 2 ^ 63) }
    ensures fault { IfErr result (λ fault. fault ≡ Memory) }
{
    let count = if range.is_down() {
        first.down_to(second)
    } else {
        second.down_to(first)
    };
    possible(count)
}

/// A bit of the part whose least significant bit has the index `second`, if it is in range.
fn part_bit(range: Bounds, word: &[Node], second: Whole, place: usize) -> Option<Node>
    requires { place < 2 ^ 63 }
    ensures { result ≡ spec.part_bit range word.now second place }
{
    let Whole {
        negative,
        magnitude,
    } = second;
    let lsb = range.lsb as u128;
    let place = place as u128;
    if 1 << 64 <= magnitude {
        return None;
    }
    match (range.is_down(), negative) {
        (true, true) => bit_at(word, place, lsb + magnitude),
        (true, false) => bit_at(word, magnitude + place, lsb),
        (false, true) => bit_at(word, lsb + place + magnitude, 0),
        (false, false) => bit_at(word, lsb + place, magnitude),
    }
}

/// The bits of a part, least significant first.
pub(crate) fn part(
    alloc: Global,
    net: &mut GateList,
    range: Bounds,
    word: &[Node],
    second: Whole,
    width: usize,
) -> Result<Vec<Node>, GateFault>
    requires width { width < 2 ^ 63 }
    requires word { AreThere net.old word.now }
    ensures builds { Builds (λ w. w.items) (spec.part_from range word.now second 0 width) net.old result net.new }
    ensures inside { IfOk result (λ w. AreThere net.new w.items) }
    ensures longer { length net.old ≤ length net.new }
{
    let mut out = Vec::new(alloc);
    for place in 0..width {
        let bit = node_or_0(net, part_bit(range, word, second, place))?;
        out.push(bit)?;
    }
    Ok(out)
}
