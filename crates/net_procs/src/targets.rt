//! Targets of assignments: where a word is written, and the gates of indices that aren't constant.
ghost use Rattle.std.specs.Prelude.{◌≡◌, ◌<◌, ◌≤◌, ◌^◌, length, map, IfOk, IfErr};
ghost use Rattle.elab_bits.specs.Selects.{all_bits, constant, range_of};
ghost use Rattle.design_form.specs.Values.{number_alone};
ghost use Rattle.net_gates.specs.declared.fault.GateFault.TheVariants.{Memory};
ghost use Rattle.net_words.specs.Builds.{Builds, AreThere};
ghost use Rattle.net_exprs.specs.Names.{HasNodes};
ghost use Rattle.net_procs.specs.Ready.{AreStrokes};
ghost use Rattle.net_procs.specs.Targets as spec;

use crate::indices::{constant, count, number, part_width, width_of};
use crate::stroke::Stroke;
use crate::strokes::{behind, first, onto_all, onto_fixed, onto_starts};
use design_form::{Bounds, Design};
use net_exprs::{extent, hits, lower};
use net_gates::{GateFault, GateList, Node};
use proc_values::{Select, all_bits, low_end, range_of};
use std::alloc::Global;
use vlog_const::Whole;
use vlog_tree::{Expr, Part};

/// A word onto a select by an index that isn't constant: the index is drawn, then whether it is each start.
fn by_index(
    alloc: Global,
    net: &mut GateList,
    design: &Design,
    nodes: &[Node],
    name: &[u8],
    part: Part,
    index: &Expr,
    width: usize,
    word: &[Node],
) -> Result<Vec<Stroke>, GateFault>
    requires has { HasNodes design.now nodes.now }
    requires nodes { AreThere net.old nodes.now }
    requires word { AreThere net.old word.now }
    requires width { width < 2 ^ 63 }
    ensures builds { Builds (λ ks. ks.items) (spec.onto_starts design.now nodes.now part name.now index.now width word.now) net.old result net.new }
    ensures inside { IfOk result (λ ks. AreStrokes net.new ks.items) }
    ensures longer { length net.old ≤ length net.new }
{
    let range = range_of(design, name);
    let context = extent(alloc, design, index)?;
    let at = lower(alloc, net, design, nodes, index, context)?;
    let wanted = net_exprs::Select { part, range, width };
    let hits = hits(alloc, net, wanted, context, at.as_slice())?;
    let select = Select { part, range, width };
    let bits = all_bits(design, name);
    onto_starts(alloc, hits.as_slice(), select, bits, first(word, width))
}

/// A word onto a select of a signal by an index.
fn onto_select(
    alloc: Global,
    net: &mut GateList,
    design: &Design,
    nodes: &[Node],
    name: &[u8],
    part: Part,
    index: &Expr,
    width: usize,
    word: &[Node],
) -> Result<Vec<Stroke>, GateFault>
    requires has { HasNodes design.now nodes.now }
    requires nodes { AreThere net.old nodes.now }
    requires word { AreThere net.old word.now }
    requires width { width < 2 ^ 63 }
    ensures builds { Builds (λ ks. ks.items) (spec.onto_select design.now nodes.now part name.now (constant index.now) index.now width word.now) net.old result net.new }
    ensures inside { IfOk result (λ ks. AreStrokes net.new ks.items) }
    ensures longer { length net.old ≤ length net.new }
{
    match constant(alloc, index)? {
        Some(at) => {
            let range = range_of(design, name);
            let select = Select { part, range, width };
            onto_fixed(alloc, select, at, all_bits(design, name), word)
        }
        None => by_index(alloc, net, design, nodes, name, part, index, width, word),
    }
}

/// A word onto `name[first : second]`.
#[tactic(auto, unfolding(crate::specs::Targets::onto_part))]
fn onto_part(
    alloc: Global,
    range: Bounds,
    bits: &[u32],
    first: Whole,
    second: Whole,
    word: &[Node],
) -> Result<Vec<Stroke>, GateFault>
    ensures items { IfOk result (λ ks. ks.items ≡ spec.onto_part range bits.now first second word.now) }
    ensures fault { IfErr result (λ fault. fault ≡ Memory) }
{
    let width = part_width(range, first, second)?;
    let part = Part::Up;
    let select = Select { part, range, width };
    onto_fixed(alloc, select, low_end(range, first, second), bits, word)
}

/// A word onto a part between two constants.
fn onto_between(
    alloc: Global,
    design: &Design,
    name: &[u8],
    first: &Expr,
    second: &Expr,
    word: &[Node],
) -> Result<Vec<Stroke>, GateFault>
    ensures items { IfOk result (λ ks. ks.items ≡ spec.onto_part (range_of design.now.signals name.now) (all_bits design.now.signals name.now) (number_alone first.now) (number_alone second.now) word.now) }
    ensures fault { IfErr result (λ fault. fault ≡ Memory) }
{
    let low = number(alloc, first)?;
    let high = number(alloc, second)?;
    onto_part(
        alloc,
        range_of(design, name),
        all_bits(design, name),
        low,
        high,
        word,
    )
}

/// A word onto a select of a signal, however it is written.
fn onto_written(
    alloc: Global,
    net: &mut GateList,
    design: &Design,
    nodes: &[Node],
    name: &[u8],
    part: Part,
    first: &Expr,
    second: &Expr,
    word: &[Node],
) -> Result<Vec<Stroke>, GateFault>
    requires has { HasNodes design.now nodes.now }
    requires nodes { AreThere net.old nodes.now }
    requires word { AreThere net.old word.now }
    ensures builds { Builds (λ ks. ks.items) (spec.select_strokes design.now nodes.now part name.now first.now second.now word.now) net.old result net.new }
    ensures inside { IfOk result (λ ks. AreStrokes net.new ks.items) }
    ensures longer { length net.old ≤ length net.new }
{
    match part {
        Part::Fixed => onto_between(alloc, design, name, first, second, word),
        Part::Up | Part::Down => {
            let width = count(alloc, second)?;
            onto_select(alloc, net, design, nodes, name, part, first, width, word)
        }
    }
}

/// A word onto a target, as strokes.
///
/// # Errors
/// As `lower`.
#[cycle(writing)]
pub(crate) fn strokes(
    alloc: Global,
    net: &mut GateList,
    design: &Design,
    nodes: &[Node],
    target: &Expr,
    word: &[Node],
) -> Result<Vec<Stroke>, GateFault>
    requires has { HasNodes design.now nodes.now }
    requires nodes { AreThere net.old nodes.now }
    requires word { AreThere net.old word.now }
    ensures builds { Builds (λ ks. ks.items) (spec.strokes design.now nodes.now target.now word.now) net.old result net.new }
    ensures inside { IfOk result (λ ks. AreStrokes net.new ks.items) }
    ensures longer { length net.old ≤ length net.new }
{
    match target {
        Expr::Name(_, name) => onto_all(alloc, all_bits(design, name.as_slice()), word),
        Expr::Index(_, name, at) => {
            let (name, at) = (name.as_slice(), at.get());
            onto_select(alloc, net, design, nodes, name, Part::Down, at, 1, word)
        }
        Expr::Select(part, _, name, first, second) => {
            let (name, first, second) = (name.as_slice(), first.get(), second.get());
            onto_written(alloc, net, design, nodes, name, *part, first, second, word)
        }
        Expr::Concat(_, members) => {
            onto_members(alloc, net, design, nodes, members.as_slice(), word)
        }
        Expr::Number(_, _)
        | Expr::Brackets(_, _)
        | Expr::Repeat(_, _, _)
        | Expr::Unary(_, _, _)
        | Expr::Binary(_, _, _, _)
        | Expr::Conditional(_, _, _, _) => Ok(Vec::new(alloc)),
    }
}

/// A word onto members, of which the last one takes the lowest bits, and is drawn first.
#[cycle(writing)]
fn onto_members(
    alloc: Global,
    net: &mut GateList,
    design: &Design,
    nodes: &[Node],
    members: &[Expr],
    word: &[Node],
) -> Result<Vec<Stroke>, GateFault>
    requires has { HasNodes design.now nodes.now }
    requires nodes { AreThere net.old nodes.now }
    requires word { AreThere net.old word.now }
    ensures builds { Builds (λ ks. ks.items) (spec.onto_members design.now (map (λ e. (e, spec.strokes design.now nodes.now e)) members.now) word.now) net.old result net.new }
    ensures inside { IfOk result (λ ks. AreStrokes net.new ks.items) }
    ensures longer { length net.old ≤ length net.new }
{
    let mut all = Vec::new(alloc);
    let mut left = members.len();
    let mut below: u128 = 0;
    while 0 < left {
        left -= 1;
        let rest = behind(word, below);
        let mut top = match strokes(alloc, net, design, nodes, &members[left], rest) {
            Ok(top) => top,
            Err(fault) => return Err(fault),
        };
        match all.append(&mut top) {
            Ok(()) => {}
            Err(fault) => return Err(fault.into()),
        }
        match width_of(alloc, design, &members[left]) {
            Ok(width) => below += width as u128,
            Err(fault) => return Err(fault),
        }
    }
    Ok(all)
}
