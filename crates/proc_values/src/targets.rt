//! Targets of assignments.
ghost use Rattle.std.specs.Prelude.{◌≡◌, ◌+◌, ◌<◌, ◌≤◌, ◌^◌, ◌++◌, length, map, Option, IfOk, OnOk};
ghost use Rattle.design_form.specs.Signals.{bounds_of};
ghost use Rattle.design_sizes.specs.Sizes.{shape_of};
ghost use Rattle.elab_bits.specs.Selects.{all_bits, constant, range_of};
ghost use Rattle.proc_values.specs.Targets.{at_start, low_end, onto_all, onto_members, onto_part, onto_select, select_strokes, strokes, widths};

use crate::hits::{Select, hits};
use crate::indices::{constant, count, number, part_width};
use crate::stroke::Stroke;
use crate::strokes::{behind, first, put_all, put_fixed, put_starts};
use design_form::{Bounds, Design, EvalFault, Extent, eval, size_of};
use rdc_tern::Tern;
use std::alloc::Global;
use vlog_const::Whole;
use vlog_tree::{Expr, Part};

/// All bits of a signal, least significant first.
#[tactic(auto, unfolding(elab_bits::specs::Selects::all_bits, elab_bits::specs::Selects::listed))]
pub fn all_bits<'a>(design: &'a Design, name: &[u8]) -> &'a [u32]
    ensures { result.now ≡ all_bits design.now.signals name.now }
{
    match design.bits_of(name) {
        Some(bits) => bits,
        None => &[],
    }
}

/// The range of a signal.
#[tactic(auto, unfolding(elab_bits::specs::Selects::range_of, elab_bits::specs::Selects::ranged))]
pub fn range_of(design: &Design, name: &[u8]) -> Bounds
    ensures { result ≡ range_of design.now.signals name.now }
{
    match design.signal(name) {
        Some(signal) => signal.bounds(),
        None => Bounds { msb: 0, lsb: 0 },
    }
}

/// How wide an expression is.
pub fn width_of(alloc: Global, design: &Design, e: &Expr) -> Result<usize, EvalFault>
    ensures value { IfOk result (λ n. n ≡ (shape_of design.now e.now).width) }
    ensures bound { IfOk result (λ n. n < 2 ^ 64) }
{
    Ok(size_of(alloc, design, e)?.width)
}

/// A word onto a select of a signal by an index.
#[tactic(auto, unfolding(crate::specs::Targets::onto_select))]
fn put_select(
    alloc: Global,
    design: &Design,
    now: &[Tern],
    name: &[u8],
    part: Part,
    index: &Expr,
    width: usize,
    word: &[Tern],
    out: &mut Vec<Stroke>,
) -> Result<(), EvalFault>
    requires { width < 2 ^ 63 }
    ensures { OnOk result (out.new.items ≡ out.old.items ++ onto_select design.now now.now part name.now (constant index.now) index.now width word.now) }
{
    let range = range_of(design, name);
    let bits = all_bits(design, name);
    let select = Select { part, range, width };
    match constant(alloc, index)? {
        Some(at) => put_fixed(select, at, bits, word, out),
        None => {
            let extent = size_of(alloc, design, index)?;
            let at = eval(alloc, design, index, now)?;
            let hits = hits(alloc, select, extent, at.as_slice())?;
            put_starts(hits.as_slice(), select, bits, first(word, width), out)
        }
    }
}

/// The lowest index of `[first : second]`.
#[tactic(auto, unfolding(crate::specs::Targets::low_end))]
pub fn low_end(range: Bounds, first: Whole, second: Whole) -> Whole
    ensures { result ≡ low_end range first second }
{
    if range.is_down() { second } else { first }
}

/// A word onto `name[first : second]`.
#[tactic(auto, unfolding(crate::specs::Targets::onto_part))]
fn put_part(
    range: Bounds,
    bits: &[u32],
    first: Whole,
    second: Whole,
    word: &[Tern],
    out: &mut Vec<Stroke>,
) -> Result<(), EvalFault>
    ensures { OnOk result (out.new.items ≡ out.old.items ++ onto_part range bits.now first second word.now) }
{
    let width = part_width(range, first, second)?;
    let part = Part::Up;
    let select = Select { part, range, width };
    put_fixed(select, low_end(range, first, second), bits, word, out)
}

/// A word onto a select of a signal, however it is written.
#[tactic(auto, unfolding(crate::specs::Targets::select_strokes))]
fn put_written(
    alloc: Global,
    design: &Design,
    now: &[Tern],
    name: &[u8],
    part: Part,
    first: &Expr,
    second: &Expr,
    word: &[Tern],
    out: &mut Vec<Stroke>,
) -> Result<(), EvalFault>
    ensures { OnOk result (out.new.items ≡ out.old.items ++ select_strokes design.now now.now part name.now first.now second.now word.now) }
{
    match part {
        Part::Fixed => {
            let low = number(alloc, first)?;
            let high = number(alloc, second)?;
            put_part(
                range_of(design, name),
                all_bits(design, name),
                low,
                high,
                word,
                out,
            )
        }
        Part::Up | Part::Down => {
            let width = count(alloc, second)?;
            put_select(alloc, design, now, name, part, first, width, word, out)
        }
    }
}

/// A word onto a target, behind what is there.
///
/// # Errors
/// Want of memory.
#[cycle(writing)]
#[tactic(auto, using(crate::proofs::TargetForms::forms))]
pub(crate) fn put_strokes(
    alloc: Global,
    design: &Design,
    now: &[Tern],
    target: &Expr,
    word: &[Tern],
    out: &mut Vec<Stroke>,
) -> Result<(), EvalFault>
    ensures { OnOk result (out.new.items ≡ out.old.items ++ strokes design.now now.now target.now word.now) }
{
    match target {
        Expr::Name(_, name) => put_all(all_bits(design, name.as_slice()), word, out),
        Expr::Index(_, name, at) => {
            let (name, at) = (name.as_slice(), at.get());
            put_select(alloc, design, now, name, Part::Down, at, 1, word, out)
        }
        Expr::Select(part, _, name, first, second) => {
            let (name, first, second) = (name.as_slice(), first.get(), second.get());
            put_written(alloc, design, now, name, *part, first, second, word, out)
        }
        Expr::Concat(_, members) => {
            put_members(alloc, design, now, members.as_slice(), word, out)
        }
        Expr::Number(_, _)
        | Expr::Brackets(_, _)
        | Expr::Repeat(_, _, _)
        | Expr::Unary(_, _, _)
        | Expr::Binary(_, _, _, _)
        | Expr::Conditional(_, _, _, _) => Ok(()),
    }
}

/// A word onto members, of which the last one takes the lowest bits.
#[cycle(writing)]
fn put_members(
    alloc: Global,
    design: &Design,
    now: &[Tern],
    members: &[Expr],
    word: &[Tern],
    out: &mut Vec<Stroke>,
) -> Result<(), EvalFault>
    ensures { OnOk result (out.new.items ≡ out.old.items ++ onto_members design.now (map (λ e. (e, strokes design.now now.now e)) members.now) word.now) }
{
    let mut left = members.len();
    let mut below: u128 = 0;
    while 0 < left {
        left -= 1;
        let rest = behind(word, below);
        match put_strokes(alloc, design, now, &members[left], rest, out) {
            Ok(()) => {}
            Err(fault) => return Err(fault),
        }
        match width_of(alloc, design, &members[left]) {
            Ok(width) => below += width as u128,
            Err(fault) => return Err(fault),
        }
    }
    Ok(())
}
