//! Words written onto bits, as strokes. They draw no gates.
ghost use Rattle.std.specs.Prelude.{◌≡◌, ◌<◌, ◌^◌, ◌++◌, None, length, take, drop, IfOk, IfErr, OnOk};
ghost use Rattle.net_gates.specs.declared.fault.GateFault.TheVariants.{Memory};
ghost use Rattle.proc_values.specs.Targets.{fixed_start};
ghost use Rattle.net_procs.specs.Targets as spec;

use crate::stroke::Stroke;
use net_gates::{GateFault, Node};
use proc_values::{Select, fixed_start, reached};
use std::alloc::Global;
use vlog_const::Whole;

/// One bit of a word, where it has a place.
#[tactic(auto, unfolding(crate::specs::Targets::onto))]
fn put_onto(
    hit: Option<Node>,
    place: Option<u32>,
    value: Node,
    strokes: &mut Vec<Stroke>,
) -> Result<(), GateFault>
    ensures items { OnOk result (strokes.new.items ≡ strokes.old.items ++ spec.onto hit place value) }
    ensures fault { IfErr result (λ fault. fault ≡ Memory) }
{
    match place {
        None => Ok(()),
        Some(bit) => {
            strokes.push(Stroke { hit, bit, value })?;
            Ok(())
        }
    }
}

/// A word onto the select from one start.
fn put_from(
    hit: &Option<Node>,
    select: Select,
    bits: &[u32],
    start: u128,
    word: &[Node],
    strokes: &mut Vec<Stroke>,
) -> Result<(), GateFault>
    requires start { start < 2 ^ 101 }
    ensures items { OnOk result (strokes.new.items ≡ strokes.old.items ++ spec.from_start hit.now select.range bits.now select.width start 0 word.now) }
    ensures fault { IfErr result (λ fault. fault ≡ Memory) }
{
    for j in 0..word.len() {
        put_onto(*hit, reached(select, bits, start, j), word[j], strokes)?;
    }
    Ok(())
}

/// The same where the index can be the start.
#[tactic(auto, unfolding(crate::specs::Targets::from_hit))]
fn put_hit(
    hit: &Option<Node>,
    select: Select,
    bits: &[u32],
    start: u128,
    word: &[Node],
    strokes: &mut Vec<Stroke>,
) -> Result<(), GateFault>
    requires start { start < 2 ^ 101 }
    ensures items { OnOk result (strokes.new.items ≡ strokes.old.items ++ spec.from_hit hit.now select.range bits.now select.width start word.now) }
    ensures fault { IfErr result (λ fault. fault ≡ Memory) }
{
    match hit {
        None => Ok(()),
        Some(_) => put_from(hit, select, bits, start, word, strokes),
    }
}

/// A word onto each start that the index can be.
pub(crate) fn onto_starts(
    alloc: Global,
    hits: &[Option<Node>],
    select: Select,
    bits: &[u32],
    word: &[Node],
) -> Result<Vec<Stroke>, GateFault>
    ensures items { IfOk result (λ ks. ks.items ≡ spec.from_starts hits.now select.range bits.now select.width 0 word.now) }
    ensures fault { IfErr result (λ fault. fault ≡ Memory) }
{
    let mut strokes = Vec::new(alloc);
    for i in 0..hits.len() {
        put_hit(&hits[i], select, bits, i as u128, word, &mut strokes)?;
    }
    Ok(strokes)
}

/// A word onto all bits of a name.
pub(crate) fn onto_all(alloc: Global, bits: &[u32], word: &[Node]) -> Result<Vec<Stroke>, GateFault>
    ensures items { IfOk result (λ ks. ks.items ≡ spec.onto_all bits.now word.now) }
    ensures fault { IfErr result (λ fault. fault ≡ Memory) }
{
    let mut strokes = Vec::new(alloc);
    for i in 0..bits.len().min(word.len()) {
        strokes.push(Stroke {
            hit: None,
            bit: bits[i],
            value: word[i],
        })?;
    }
    Ok(strokes)
}

/// The lowest bits of a word, as many as there are of so many.
pub(crate) fn first(word: &[Node], count: usize) -> &[Node]
    ensures { result.now ≡ take count word.now }
{
    if word.len() <= count {
        return word;
    }
    let (low, _) = word.split_at(count);
    low
}

/// The bits of a word behind so many.
pub(crate) fn behind(word: &[Node], count: u128) -> &[Node]
    ensures { result.now ≡ drop count word.now }
{
    if word.len() as u128 <= count {
        return &[];
    }
    let (_, high) = word.split_at(count as usize);
    high
}

/// A word onto the select at a constant index.
#[tactic(auto, unfolding(crate::specs::Targets::at_start))]
pub(crate) fn onto_fixed(
    alloc: Global,
    select: Select,
    index: Whole,
    bits: &[u32],
    word: &[Node],
) -> Result<Vec<Stroke>, GateFault>
    requires { select.width < 2 ^ 63 }
    ensures items { IfOk result (λ ks. ks.items ≡ spec.at_start (fixed_start select.part select.range select.width index) select.range bits.now select.width word.now) }
    ensures fault { IfErr result (λ fault. fault ≡ Memory) }
{
    let (_lowest, _width, _len) = (select.range.lowest(), select.range.width(), bits.len());
    let mut strokes = Vec::new(alloc);
    if 1 << 100 <= index.magnitude {
        return Ok(strokes);
    }
    match fixed_start(select, index) {
        None => Ok(strokes),
        Some(start) => {
            let word = first(word, select.width);
            put_from(&None, select, bits, start, word, &mut strokes)?;
            Ok(strokes)
        }
    }
}
