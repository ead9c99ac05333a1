//! Shifts of words, least significant bit first, by amounts that may be X.
ghost use Rattle.std.specs.Prelude.{◌≡◌, ◌<◌, ◌≤◌, ◌+◌, ◌++◌, length, min, replicate, slice_index_or, IfOk, IfErr};
ghost use Rattle.net_gates.specs.declared.fault.GateFault.TheVariants.{Memory};
ghost use Rattle.net_words.specs.Builds.{Builds, AreThere};
ghost use Rattle.net_words.specs.Shifts.{raised, lowered};
ghost use Rattle.net_words.specs.Shifts as spec;

use crate::bits::put;
use crate::words::select;
use net_gates::{GateFault, GateList, Node};
use net_view::Gate;
use std::alloc::Global;

/// Where the bits of a word move.
#[derive(Clone, Copy)]
pub enum Toward {
    /// Up, which is left as words are written.
    Top,
    /// Down.
    Bottom,
}

/// `word << amount`, filled with 0.
pub fn shl(
    alloc: Global,
    net: &mut GateList,
    word: &[Node],
    amount: &[Node],
) -> Result<Vec<Node>, GateFault>
    requires word { AreThere net.old word.now }
    requires amount { AreThere net.old amount.now }
    ensures builds { Builds (λ w. w.items) (spec.shl word.now amount.now) net.old result net.new }
    ensures width { IfOk result (λ w. length w.items ≡ length word.now) }
    ensures inside { IfOk result (λ w. AreThere net.new w.items) }
    ensures longer { length net.old ≤ length net.new }
{
    let low = put(net, Gate::Const(false))?;
    shift(alloc, net, Toward::Top, low, word, amount)
}

/// `word >> amount`, filled with 0.
pub fn shr(
    alloc: Global,
    net: &mut GateList,
    word: &[Node],
    amount: &[Node],
) -> Result<Vec<Node>, GateFault>
    requires word { AreThere net.old word.now }
    requires amount { AreThere net.old amount.now }
    ensures builds { Builds (λ w. w.items) (spec.shr word.now amount.now) net.old result net.new }
    ensures width { IfOk result (λ w. length w.items ≡ length word.now) }
    ensures inside { IfOk result (λ w. AreThere net.new w.items) }
    ensures longer { length net.old ≤ length net.new }
{
    let low = put(net, Gate::Const(false))?;
    shift(alloc, net, Toward::Bottom, low, word, amount)
}

/// `word >>> amount` of a signed word, filled with its top bit.
pub fn sar(
    alloc: Global,
    net: &mut GateList,
    word: &[Node],
    amount: &[Node],
) -> Result<Vec<Node>, GateFault>
    requires some { 0 < length word.now }
    requires word { AreThere net.old word.now }
    requires amount { AreThere net.old amount.now }
    ensures builds { Builds (λ w. w.items) (spec.sar word.now amount.now) net.old result net.new }
    ensures width { IfOk result (λ w. length w.items ≡ length word.now) }
    ensures inside { IfOk result (λ w. AreThere net.new w.items) }
    ensures longer { length net.old ≤ length net.new }
{
    let top = word[word.len() - 1];
    shift(alloc, net, Toward::Bottom, top, word, amount)
}

/// For each bit of the amount, the word moved by twice as many places.
fn shift(
    alloc: Global,
    net: &mut GateList,
    toward: Toward,
    fill: Node,
    word: &[Node],
    amount: &[Node],
) -> Result<Vec<Node>, GateFault>
    requires fill { fill < length net.old }
    requires word { AreThere net.old word.now }
    requires amount { AreThere net.old amount.now }
    ensures builds { Builds (λ w. w.items) (spec.shift_from toward fill 0 word.now amount.now) net.old result net.new }
    ensures width { IfOk result (λ w. length w.items ≡ length word.now) }
    ensures inside { IfOk result (λ w. AreThere net.new w.items) }
    ensures longer { length net.old ≤ length net.new }
{
    let mut shifted = Vec::from_slice(alloc, word)?;
    let mut distance = 1;
    for i in 0..amount.len() {
        let far = moved(alloc, toward, fill, distance, shifted.as_slice())?;
        shifted = select(alloc, net, amount[i], far.as_slice(), shifted.as_slice())?;
        distance = doubled(distance, word.len());
    }
    Ok(shifted)
}

/// The word moved by places.
fn moved(
    alloc: Global,
    toward: Toward,
    fill: Node,
    distance: usize,
    word: &[Node],
) -> Result<Vec<Node>, GateFault>
    ensures items { IfOk result (λ w. w.items ≡ spec.moved toward fill distance word.now) }
    ensures fault { IfErr result (λ fault. fault ≡ Memory) }
{
    match toward {
        Toward::Top => raise(alloc, fill, distance, word),
        Toward::Bottom => lower(alloc, fill, distance, word),
    }
}

/// The word moved up by places.
pub(crate) fn raise(
    alloc: Global,
    fill: Node,
    distance: usize,
    word: &[Node],
) -> Result<Vec<Node>, GateFault>
    ensures items { IfOk result (λ w. w.items ≡ raised fill distance word.now) }
    ensures fault { IfErr result (λ fault. fault ≡ Memory) }
{
    let mut moved = Vec::new(alloc);
    for i in 0..word.len() {
        moved.push(below(word, i, distance, fill))?;
    }
    Ok(moved)
}

/// The word moved down by places.
fn lower(alloc: Global, fill: Node, distance: usize, word: &[Node]) -> Result<Vec<Node>, GateFault>
    ensures items { IfOk result (λ w. w.items ≡ lowered fill distance word.now) }
    ensures fault { IfErr result (λ fault. fault ≡ Memory) }
{
    let mut moved = Vec::new(alloc);
    for i in 0..word.len() {
        moved.push(above(word, i, distance, fill))?;
    }
    Ok(moved)
}

/// The bit so many places below, or the fill.
fn below(word: &[Node], place: usize, distance: usize, fill: Node) -> Node
    requires { place < length word.now }
    ensures { result ≡ slice_index_or (replicate distance fill ++ word.now) place fill }
{
    if distance <= place {
        word[place - distance]
    } else {
        fill
    }
}

/// The bit so many places above, or the fill.
fn above(word: &[Node], place: usize, distance: usize, fill: Node) -> Node
    requires { place < length word.now }
    ensures { result ≡ slice_index_or word.now (place + distance) fill }
{
    if distance < word.len() - place {
        word[place + distance]
    } else {
        fill
    }
}

/// Twice a distance, or the width where that is past it.
fn doubled(distance: usize, width: usize) -> usize
    ensures { min result width ≡ min (distance + distance) width }
{
    if distance <= width / 2 {
        distance + distance
    } else {
        width
    }
}
