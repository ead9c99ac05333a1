//! Selects of a name's nodes by an index.
ghost use Rattle.std.specs.Prelude.{◌≡◌, ℕ, ◌+◌, ◌<◌, ◌≤◌, ◌^◌, length, IfOk, IfSome};
ghost use Rattle.vlog_const.specs.declared.shape.Shape.{Shape};
ghost use Rattle.design_form.specs.Bits.{can_be, fits, start_word};
ghost use Rattle.design_form.specs.Extents.{shape_of};
ghost use Rattle.design_form.specs.Selects.{start_of, starts};
ghost use Rattle.net_words.specs.Builds.{Builds, AreThere};
ghost use Rattle.net_exprs.specs.Constants.{start_bits};
ghost use Rattle.net_exprs.specs.Starts.{may_be, AreMaybe};
ghost use Rattle.net_exprs.specs.Selects as spec;

use crate::constants::constant;
use crate::selects::bit_at;
use design_form::{Bounds, Extent};
use net_gates::{GateFault, GateList, Node};
use net_view::Gate;
use net_words::{any, eq, put};
use std::alloc::Global;
use vlog_tree::Part;

/// A number that an index may be: so far above 0, or so far below -1.
#[derive(Clone, Copy)]
struct Start {
    below: bool,
    distance: usize,
}

/// A select by an index: how it is written, the range, and the width.
#[derive(Clone, Copy)]
pub struct Select {
    pub part: Part,
    pub range: Bounds,
    pub width: usize,
}

/// The index at a start, counted from below.
#[tactic(auto, unfolding(design_form::specs::Selects::start_of, design_form::specs::Selects::difference, design_form::specs::Bits::start_word, design_form::specs::Bits::can_be))]
fn start_of(select: Select, number: usize) -> Start
    requires { number < 2 ^ 63 + 2 ^ 33 }
    ensures word { (w : ℕ) → start_word w (start_of select.part select.range select.width number) ≡ start_bits result.below result.distance w }
    ensures possible { (s : Shape) → can_be s (start_of select.part select.range select.width number) ≡ may_be s result.below result.distance }
{
    let index = select.range.lowest() as usize + number;
    let above = match select.part {
        Part::Up => select.width.saturating_sub(1),
        Part::Fixed | Part::Down => 0,
    };
    if above <= index {
        return Start {
            below: false,
            distance: index - above,
        };
    }
    Start {
        below: true,
        distance: above - index - 1,
    }
}

/// Whether a number has no more than so many bits.
#[tactic(auto, using(design_form::proofs::WordLemmas::fit_steps))]
fn fits(number: usize, width: usize) -> bool
    ensures { result ≡ fits number width }
{
    if width < 64 {
        number < 1usize << width
    } else {
        true
    }
}

/// Whether an index of that extent can be a start.
fn may_be(extent: Extent, start: Start) -> bool
    ensures { result ≡ may_be (shape_of extent) start.below start.distance }
{
    let Extent { width, signed } = extent;
    let below_sign = width.saturating_sub(1);
    if start.below {
        return signed && fits(start.distance, below_sign);
    }
    if signed {
        return fits(start.distance, below_sign);
    }
    fits(start.distance, width)
}

/// Whether an index is a start.
fn equals(
    alloc: Global,
    net: &mut GateList,
    index: &[Node],
    start: Start,
) -> Result<Node, GateFault>
    requires { AreThere net.old index.now }
    ensures builds { Builds (λ n. n) (spec.equals index.now (start_bits start.below start.distance (length index.now))) net.old result net.new }
    ensures inside { IfOk result (λ n. n < length net.new) }
    ensures longer { length net.old ≤ length net.new }
{
    let distance = start.distance as u128;
    let number = constant(alloc, net, index.len(), distance, start.below)?;
    eq(alloc, net, index, number.as_slice())
}

/// Whether an index is a start; no gate where it can't be.
fn hit(
    alloc: Global,
    net: &mut GateList,
    select: Select,
    extent: Extent,
    index: &[Node],
    number: usize,
) -> Result<Option<Node>, GateFault>
    requires number { number < 2 ^ 63 + 2 ^ 33 }
    requires width { length index.now ≡ extent.width }
    requires index { AreThere net.old index.now }
    ensures builds { Builds (λ h. h) (spec.hit select.part select.range select.width (shape_of extent) index.now number) net.old result net.new }
    ensures inside { IfOk result (λ h. IfSome h (λ n. n < length net.new)) }
    ensures longer { length net.old ≤ length net.new }
{
    let start = start_of(select, number);
    if !may_be(extent, start) {
        return Ok(None);
    }
    let equal = equals(alloc, net, index, start)?;
    Ok(Some(equal))
}

/// Which of the starts an index is.
pub fn hits(
    alloc: Global,
    net: &mut GateList,
    select: Select,
    extent: Extent,
    index: &[Node],
) -> Result<Vec<Option<Node>>, GateFault>
    requires select { select.width < 2 ^ 63 }
    requires width { length index.now ≡ extent.width }
    requires index { AreThere net.old index.now }
    ensures builds { Builds (λ w. w.items) (spec.hits_from select.part select.range select.width (shape_of extent) index.now 0 (starts select.range select.width)) net.old result net.new }
    ensures count { IfOk result (λ w. length w.items ≤ 2 ^ 63 + 2 ^ 33) }
    ensures inside { IfOk result (λ w. AreMaybe net.new w.items) }
    ensures longer { length net.old ≤ length net.new }
{
    let mut hits = Vec::new(alloc);
    let count = select.range.width() + select.width - 1;
    for number in 0..count {
        let found = hit(alloc, net, select, extent, index, number)?;
        hits.push(found)?;
    }
    Ok(hits)
}

/// The node of a bit of the select from a start, if it is in range.
fn reached(select: Select, word: &[Node], number: usize, place: usize) -> Option<Node>
    requires number { number < 2 ^ 63 + 2 ^ 33 }
    requires place { place < 2 ^ 63 }
    ensures { result ≡ spec.reached select.range word.now select.width number place }
{
    if select.range.is_down() {
        bit_at(
            word,
            number as u128 + place as u128,
            select.width.saturating_sub(1) as u128,
        )
    } else {
        bit_at(
            word,
            select.range.width() as u128 + place as u128,
            number as u128 + 1,
        )
    }
}

/// The AND of a hit and a bit, where there are both, behind those that are there.
fn put_term(
    net: &mut GateList,
    found: &mut Vec<Node>,
    hit: Option<Node>,
    bit: Option<Node>,
) -> Result<(), GateFault>
    requires hit { IfSome hit (λ n. n < length net.old) }
    requires bit { IfSome bit (λ n. n < length net.old) }
    requires found { AreThere net.old found.old.items }
    ensures builds { Builds (λ _. found.new.items) (spec.with_term found.old.items hit bit) net.old result net.new }
    ensures inside { AreThere net.new found.new.items }
    ensures longer { length net.old ≤ length net.new }
{
    match hit {
        None => Ok(()),
        Some(hit) => match bit {
            None => Ok(()),
            Some(bit) => {
                let both = put(net, Gate::And(hit, bit))?;
                found.push(both)?;
                Ok(())
            }
        },
    }
}

/// A bit of a select: over the starts, the OR of whether the index is the start AND the bit from there.
fn picked_bit(
    alloc: Global,
    net: &mut GateList,
    select: Select,
    word: &[Node],
    hits: &[Option<Node>],
    place: usize,
) -> Result<Node, GateFault>
    requires count { length hits.now ≤ 2 ^ 63 + 2 ^ 33 }
    requires place { place < 2 ^ 63 }
    requires word { AreThere net.old word.now }
    requires hits { AreMaybe net.old hits.now }
    ensures builds { Builds (λ n. n) (spec.picked_bit hits.now select.range word.now select.width place) net.old result net.new }
    ensures inside { IfOk result (λ n. n < length net.new) }
    ensures longer { length net.old ≤ length net.new }
{
    let found = terms(alloc, net, select, word, hits, place)?;
    any(net, found.as_slice())
}

/// The terms of a bit over the starts, from the lowest one up.
fn terms(
    alloc: Global,
    net: &mut GateList,
    select: Select,
    word: &[Node],
    hits: &[Option<Node>],
    place: usize,
) -> Result<Vec<Node>, GateFault>
    requires count { length hits.now ≤ 2 ^ 63 + 2 ^ 33 }
    requires place { place < 2 ^ 63 }
    requires word { AreThere net.old word.now }
    requires hits { AreMaybe net.old hits.now }
    ensures builds { Builds (λ w. w.items) (spec.terms hits.now select.range word.now select.width 0 place) net.old result net.new }
    ensures inside { IfOk result (λ w. AreThere net.new w.items) }
    ensures longer { length net.old ≤ length net.new }
{
    let mut found = Vec::new(alloc);
    for number in 0..hits.len() {
        let bit = reached(select, word, number, place);
        put_term(net, &mut found, hits[number], bit)?;
    }
    Ok(found)
}

/// A select by an index.
pub(crate) fn picked(
    alloc: Global,
    net: &mut GateList,
    select: Select,
    word: &[Node],
    extent: Extent,
    index: &[Node],
) -> Result<Vec<Node>, GateFault>
    requires select { select.width < 2 ^ 63 }
    requires width { length index.now ≡ extent.width }
    requires word { AreThere net.old word.now }
    requires index { AreThere net.old index.now }
    ensures builds { Builds (λ w. w.items) (spec.picked_of select.part select.range word.now select.width (shape_of extent) index.now) net.old result net.new }
    ensures inside { IfOk result (λ w. AreThere net.new w.items) }
    ensures longer { length net.old ≤ length net.new }
{
    let hits = hits(alloc, net, select, extent, index)?;
    picked_bits(alloc, net, select, word, hits.as_slice())
}

/// The bits of a select, least significant first.
fn picked_bits(
    alloc: Global,
    net: &mut GateList,
    select: Select,
    word: &[Node],
    hits: &[Option<Node>],
) -> Result<Vec<Node>, GateFault>
    requires select { select.width < 2 ^ 63 }
    requires count { length hits.now ≤ 2 ^ 63 + 2 ^ 33 }
    requires word { AreThere net.old word.now }
    requires hits { AreMaybe net.old hits.now }
    ensures builds { Builds (λ w. w.items) (spec.picked_from hits.now select.range word.now select.width 0 select.width) net.old result net.new }
    ensures inside { IfOk result (λ w. AreThere net.new w.items) }
    ensures longer { length net.old ≤ length net.new }
{
    let mut out = Vec::new(alloc);
    for place in 0..select.width {
        let bit = picked_bit(alloc, net, select, word, hits, place)?;
        out.push(bit)?;
    }
    Ok(out)
}
