//! What an expression is worth in a state.
ghost use Rattle.std.specs.Prelude.{◌≡◌, map, IfOk};
ghost use Rattle.design_form.specs.Extents.{shape_of, view_of};
ghost use Rattle.design_form.specs.Values.{Valued, concat_valued, count_alone, index_valued, joined, named, repeat_valued, select_valued, select_word, unary_valued, valued, word_in, word_of, word_within};
ghost use Rattle.design_form.specs.State.{seen_in, val};

use crate::constants::{self, count, is_computed, number};
use crate::design::Design;
use crate::extent::{Extent, possible};
use crate::extents::{extent, sides, within};
use crate::fault::EvalFault;
use crate::operators::{before, between};
use crate::seen::{View, seen};
use crate::selects::{Select, part, part_width, picked};
use crate::words::{bits, chosen, copies, extended};
use rdc_tern::{Tern, any};
use std::alloc::Global;
use vlog_tree::{Expr, Part, Unary};

/// A part between two constants.
#[tactic(auto, unfolding(crate::specs::Values::select_word))]
fn constant_part(
    alloc: Global,
    view: &View,
    first: &Expr,
    second: &Expr,
) -> Result<Vec<Tern>, EvalFault>
    ensures { IfOk result (λ w. (a : Valued) → w.items ≡ select_word (view_of view.now) Part.Fixed first.now a second.now) }
{
    let first = number(alloc, first)?;
    let second = number(alloc, second)?;
    let width = part_width(view.range, first, second)?;
    part(alloc, view.range, view.word.as_slice(), second, width)
}

/// The word of an expression that stands alone.
#[cycle(words)]
fn alone(alloc: Global, design: &Design, state: &[Tern], e: &Expr) -> Result<Vec<Tern>, EvalFault>
    ensures { IfOk result (λ w. w.items ≡ word_of (seen_in design.now state.now) e.now) }
{
    let context = extent(alloc, design, state, e)?;
    word(alloc, design, state, e, context)
}

/// The word of an expression in a context.
#[cycle(words)]
#[tactic(auto, using(crate::proofs::ValueLemmas::forms))]
fn word(
    alloc: Global,
    design: &Design,
    state: &[Tern],
    e: &Expr,
    context: Extent,
) -> Result<Vec<Tern>, EvalFault>
    ensures { IfOk result (λ w. w.items ≡ word_in (seen_in design.now state.now) (shape_of context) e.now) }
{
    match e {
        Expr::Number(_, n) => {
            let n = n.get();
            extended(bits(alloc, n.width as usize, n.bits)?, context)
        }
        Expr::Name(_, name) => named(alloc, design, state, name.as_slice(), context),
        Expr::Index(_, name, at) => index(alloc, design, state, name.as_slice(), at.get(), context),
        Expr::Select(part, _, name, first, second) => {
            let (name, first, second) = (name.as_slice(), first.get(), second.get());
            select(alloc, design, state, name, *part, first, second, context)
        }
        Expr::Brackets(_, inner) => word(alloc, design, state, inner.get(), context),
        Expr::Concat(_, members) => concat(alloc, design, state, members.as_slice(), context),
        Expr::Repeat(_, n, all) => repeat(alloc, design, state, all.as_slice(), n.get(), context),
        Expr::Unary(_, op, inner) => unary(alloc, design, state, *op, inner.get(), context),
        Expr::Binary(_, op, left, right) => {
            if is_computed(*op) {
                return constants::word(alloc, e, context);
            }
            let (left, right) = (left.get(), right.get());
            let sides = sides(alloc, design, state, *op, left, right, context)?;
            let x = word(alloc, design, state, left, sides.left)?;
            let y = word(alloc, design, state, right, sides.right)?;
            between(alloc, *op, sides.signed, context, x, y)
        }
        Expr::Conditional(_, test, left, right) => {
            let test = alone(alloc, design, state, test.get())?;
            let x = word(alloc, design, state, left.get(), context)?;
            let y = word(alloc, design, state, right.get(), context)?;
            chosen(alloc, any(&test), &x, &y)
        }
    }
}

/// A name.
fn named(
    alloc: Global,
    design: &Design,
    state: &[Tern],
    name: &[u8],
    context: Extent,
) -> Result<Vec<Tern>, EvalFault>
    ensures { IfOk result (λ w. w.items ≡ (named (seen_in design.now state.now name.now)).word (shape_of context)) }
{
    let View { word, .. } = seen(alloc, design, state, name)?;
    extended(word, context)
}

/// Members side by side.
#[cycle(words)]
fn concat(
    alloc: Global,
    design: &Design,
    state: &[Tern],
    members: &[Expr],
    context: Extent,
) -> Result<Vec<Tern>, EvalFault>
    ensures { IfOk result (λ w. w.items ≡ (concat_valued (map (valued (seen_in design.now state.now)) members.now)).word (shape_of context)) }
{
    extended(joined(alloc, design, state, members)?, context)
}

/// Copies of members.
#[cycle(words)]
fn repeat(
    alloc: Global,
    design: &Design,
    state: &[Tern],
    members: &[Expr],
    number: &Expr,
    context: Extent,
) -> Result<Vec<Tern>, EvalFault>
    ensures { IfOk result (λ w. w.items ≡ (repeat_valued (count_alone number.now) (map (valued (seen_in design.now state.now)) members.now)).word (shape_of context)) }
{
    let number = count(alloc, number)?;
    let members = joined(alloc, design, state, members)?;
    extended(copies(alloc, number, &members)?, context)
}

/// An operator before its operand.
#[cycle(words)]
#[tactic(auto, unfolding(vlog_const::specs::Widths::unary_context))]
fn unary(
    alloc: Global,
    design: &Design,
    state: &[Tern],
    op: Unary,
    inner: &Expr,
    context: Extent,
) -> Result<Vec<Tern>, EvalFault>
    ensures { IfOk result (λ w. w.items ≡ (unary_valued op (valued (seen_in design.now state.now) inner.now)).word (shape_of context)) }
{
    let within = within(alloc, design, state, op, inner, context)?;
    let operand = word(alloc, design, state, inner, within)?;
    before(alloc, op, context, operand)
}

/// A bit by an index.
#[cycle(words)]
#[tactic(auto, using(crate::proofs::WidthLemmas::widths))]
fn index(
    alloc: Global,
    design: &Design,
    state: &[Tern],
    name: &[u8],
    at: &Expr,
    context: Extent,
) -> Result<Vec<Tern>, EvalFault>
    ensures { IfOk result (λ w. w.items ≡ (index_valued (seen_in design.now state.now name.now) (valued (seen_in design.now state.now) at.now)).word (shape_of context)) }
{
    let view = seen(alloc, design, state, name)?;
    let a = extent(alloc, design, state, at)?;
    let at = word(alloc, design, state, at, a)?;
    let select = Select {
        part: Part::Down,
        range: view.range,
        width: 1,
    };
    let bit = picked(alloc, select, view.word.as_slice(), a, &at)?;
    extended(bit, context)
}

/// A select of bits.
#[cycle(words)]
#[tactic(auto, using(crate::proofs::WidthLemmas::widths), unfolding(crate::specs::Values::select_word))]
fn select(
    alloc: Global,
    design: &Design,
    state: &[Tern],
    name: &[u8],
    part: Part,
    first: &Expr,
    second: &Expr,
    context: Extent,
) -> Result<Vec<Tern>, EvalFault>
    ensures { IfOk result (λ w. w.items ≡ (select_valued (seen_in design.now state.now name.now) part first.now (valued (seen_in design.now state.now) first.now) second.now).word (shape_of context)) }
{
    let view = seen(alloc, design, state, name)?;
    match part {
        Part::Fixed => {
            let bits = constant_part(alloc, &view, first, second)?;
            extended(bits, context)
        }
        Part::Up | Part::Down => {
            let width = possible(count(alloc, second)?)?;
            let a = extent(alloc, design, state, first)?;
            let at = word(alloc, design, state, first, a)?;
            let select = Select {
                part,
                range: view.range,
                width,
            };
            let bits = picked(alloc, select, view.word.as_slice(), a, &at)?;
            extended(bits, context)
        }
    }
}

/// Members side by side, the first one at the top.
#[cycle(words)]
fn joined(
    alloc: Global,
    design: &Design,
    state: &[Tern],
    members: &[Expr],
) -> Result<Vec<Tern>, EvalFault>
    ensures { IfOk result (λ w. w.items ≡ joined (map (valued (seen_in design.now state.now)) members.now)) }
{
    let mut all = Vec::new(alloc);
    let mut left = members.len();
    while 0 < left {
        left -= 1;
        let mut bits = match alone(alloc, design, state, &members[left]) {
            Ok(bits) => bits,
            Err(fault) => return Err(fault),
        };
        match all.append(&mut bits) {
            Ok(()) => {}
            Err(fault) => return Err(fault.into()),
        }
    }
    Ok(all)
}

/// The value of an expression that stands alone, least significant bit first, where the state gives each bit its value
/// by its number (IEEE 1364-2005, clause 5).
///
/// Each operator is its gates: a sum its carries, `?:` an AND and an OR for each bit, a select of a variable index the OR
/// over what it may be. `/`, `%`, `**`, counts, the bounds of `:` and the widths of `+:` and `-:` are those of constants,
/// and count as 0 where they have no value. What is out of a signal's range is 0, and a z digit is 0. A bit that the state
/// doesn't reach is X, and a name that is not declared has no bits.
///
/// # Errors
/// `Memory` alone.
pub fn eval(
    alloc: Global,
    design: &Design,
    e: &Expr,
    state: &[Tern],
) -> Result<Vec<Tern>, EvalFault>
    ensures { IfOk result (λ w. w.items ≡ val design.now state.now e.now) }
{
    alone(alloc, design, state, e)
}

/// The value as on the right of an assignment to `width` bits: in a context of the larger width, by its own sign.
///
/// # Errors
/// `Memory` alone.
pub fn eval_within(
    alloc: Global,
    design: &Design,
    e: &Expr,
    state: &[Tern],
    width: usize,
) -> Result<Vec<Tern>, EvalFault>
    ensures { IfOk result (λ w. w.items ≡ word_within (seen_in design.now state.now) width e.now) }
{
    let a = extent(alloc, design, state, e)?;
    let context = Extent {
        width: a.width.max(width),
        signed: a.signed,
    };
    word(alloc, design, state, e, context)
}
