//! Widths and signs of expressions by themselves.
ghost use Rattle.std.specs.Prelude.{◌≡◌, ◌*◌, ◌<◌, ◌^◌, false, List, map, IfOk};
ghost use Rattle.vlog_const.specs.Widths.{common, left_context, right_context, unary_context, unary_shape};
ghost use Rattle.design_form.specs.Extents.{shape_of};
ghost use Rattle.design_form.specs.Gates.{between};
ghost use Rattle.design_form.specs.Selects.{Seen};
ghost use Rattle.design_form.specs.Values.{joined_width, select_width, valued};
ghost use Rattle.design_form.specs.State.{seen_in};

use crate::constants::{count, number};
use crate::design::Design;
use crate::extent::{Extent, extent_in, left_in, possible, right_in, unsigned};
use crate::fault::EvalFault;
use crate::seen::{extent_of, range_of};
use crate::selects::part_width;
use crate::signal::Bounds;
use rdc_tern::Tern;
use std::alloc::Global;
use vlog_const::{Family, Shape, family, operand_family};
use vlog_tree::{Binary, Expr, Part, Unary};

/// How many bits a select of a range has.
#[tactic(auto, unfolding(crate::specs::Values::select_width))]
pub(crate) fn select_width(
    alloc: Global,
    range: Bounds,
    part: Part,
    first: &Expr,
    second: &Expr,
) -> Result<usize, EvalFault>
    ensures value { IfOk result (λ n. (v : Seen) → v.range ≡ range → n ≡ select_width v part first.now second.now) }
    ensures bound { IfOk result (λ n. n < 2 ^ 63) }
{
    match part {
        Part::Fixed => part_width(range, number(alloc, first)?, number(alloc, second)?),
        Part::Up | Part::Down => possible(count(alloc, second)?),
    }
}

/// The extent of a select by itself.
fn extent_of_select(
    alloc: Global,
    design: &Design,
    state: &[Tern],
    name: &[u8],
    part: Part,
    first: &Expr,
    second: &Expr,
) -> Result<Extent, EvalFault>
    ensures { IfOk result (λ x. shape_of x ≡ record { width = select_width (seen_in design.now state.now name.now) part first.now second.now; signed = false }) }
{
    let range = range_of(design, name);
    let width = select_width(alloc, range, part, first, second)?;
    Ok(unsigned(width))
}

/// How many bits some copies have.
fn repeated(count: u128, width: usize) -> Result<usize, EvalFault>
    ensures value { IfOk result (λ n. n ≡ count * width) }
    ensures bound { IfOk result (λ n. n < 2 ^ 63) }
{
    match count.checked_mul(width as u128) {
        Some(width) => possible(width),
        None => Err(EvalFault::Memory),
    }
}

/// The extent of an expression by itself.
#[cycle(extents)]
#[tactic(auto, using(crate::proofs::ValueLemmas::forms))]
pub(crate) fn extent(
    alloc: Global,
    design: &Design,
    state: &[Tern],
    e: &Expr,
) -> Result<Extent, EvalFault>
    ensures { IfOk result (λ x. shape_of x ≡ (valued (seen_in design.now state.now) e.now).shape) }
{
    match e {
        Expr::Number(_, n) => {
            let n = n.get();
            Ok(Extent {
                width: n.width as usize,
                signed: n.signed,
            })
        }
        Expr::Name(_, name) => Ok(extent_of(design, name.as_slice())),
        Expr::Index(_, _, _) => Ok(unsigned(1)),
        Expr::Select(part, _, name, first, second) => {
            let (name, first, second) = (name.as_slice(), first.get(), second.get());
            extent_of_select(alloc, design, state, name, *part, first, second)
        }
        Expr::Brackets(_, inner) => extent(alloc, design, state, inner.get()),
        Expr::Concat(_, members) => {
            let width = joined_width(alloc, design, state, members.as_slice())?;
            Ok(unsigned(width))
        }
        Expr::Repeat(_, copies, members) => {
            let copies = count(alloc, copies.get())?;
            let width = joined_width(alloc, design, state, members.as_slice())?;
            Ok(unsigned(repeated(copies, width)?))
        }
        Expr::Unary(_, op, inner) => extent_before(alloc, design, state, *op, inner.get()),
        Expr::Binary(_, op, left, right) => match family(*op) {
            Family::Contextual => {
                let a = extent(alloc, design, state, left.get())?;
                let b = extent(alloc, design, state, right.get())?;
                Ok(a.common(b))
            }
            Family::Compared | Family::Alone => Ok(unsigned(1)),
            Family::Leading => extent(alloc, design, state, left.get()),
        },
        Expr::Conditional(_, _, left, right) => {
            let a = extent(alloc, design, state, left.get())?;
            let b = extent(alloc, design, state, right.get())?;
            Ok(a.common(b))
        }
    }
}

/// The extent of an operator before its operand, which is looked at only where it tells.
#[cycle(extents)]
#[tactic(auto, unfolding(vlog_const::specs::Widths::unary_shape))]
fn extent_before(
    alloc: Global,
    design: &Design,
    state: &[Tern],
    op: Unary,
    inner: &Expr,
) -> Result<Extent, EvalFault>
    ensures { IfOk result (λ x. shape_of x ≡ unary_shape op (valued (seen_in design.now state.now) inner.now).shape) }
{
    let family = operand_family(op);
    match family {
        Family::Compared | Family::Alone => Ok(unsigned(1)),
        Family::Contextual | Family::Leading => {
            let a = extent(alloc, design, state, inner)?;
            Ok(extent_in(family, a, a))
        }
    }
}

/// How many bits members have together.
#[cycle(extents)]
fn joined_width(
    alloc: Global,
    design: &Design,
    state: &[Tern],
    members: &[Expr],
) -> Result<usize, EvalFault>
    ensures value { IfOk result (λ n. n ≡ joined_width (map (valued (seen_in design.now state.now)) members.now)) }
{
    let mut width = 0;
    for member in members {
        let more = match extent(alloc, design, state, member) {
            Ok(a) => a.width,
            Err(fault) => return Err(fault),
        };
        width = match possible(width as u128 + more as u128) {
            Ok(width) => width,
            Err(fault) => return Err(fault),
        };
    }
    Ok(width)
}

/// What an operator hands to its operand in a context.
#[tactic(auto, unfolding(vlog_const::specs::Widths::unary_context))]
pub(crate) fn within(
    alloc: Global,
    design: &Design,
    state: &[Tern],
    op: Unary,
    inner: &Expr,
    context: Extent,
) -> Result<Extent, EvalFault>
    ensures { IfOk result (λ x. shape_of x ≡ unary_context op (valued (seen_in design.now state.now) inner.now).shape (shape_of context)) }
{
    let family = operand_family(op);
    match family {
        Family::Contextual | Family::Leading => Ok(context),
        Family::Compared | Family::Alone => {
            let a = extent(alloc, design, state, inner)?;
            Ok(left_in(family, a, a, context))
        }
    }
}

/// The contexts of an operator's operands, and for a comparison whether both are signed.
#[derive(Clone, Copy)]
pub(crate) struct Handed {
    pub(crate) left: Extent,
    pub(crate) right: Extent,
    pub(crate) signed: bool,
}

/// What an operator hands to its operands in a context. Where that is the context, they are not looked at.
#[tactic(auto, unfolding(vlog_const::specs::Widths::left_context, vlog_const::specs::Widths::right_context, crate::specs::Gates::between_in))]
pub(crate) fn sides(
    alloc: Global,
    design: &Design,
    state: &[Tern],
    op: Binary,
    left: &Expr,
    right: &Expr,
    context: Extent,
) -> Result<Handed, EvalFault>
    ensures left { IfOk result (λ s. shape_of s.left ≡ left_context op (valued (seen_in design.now state.now) left.now).shape (valued (seen_in design.now state.now) right.now).shape (shape_of context)) }
    ensures right { IfOk result (λ s. shape_of s.right ≡ right_context op (valued (seen_in design.now state.now) left.now).shape (valued (seen_in design.now state.now) right.now).shape (shape_of context)) }
    ensures signed { IfOk result (λ s. (c : Shape) (a b : List Tern) → between op s.signed c a b ≡ between op (common (valued (seen_in design.now state.now) left.now).shape (valued (seen_in design.now state.now) right.now).shape).signed c a b) }
{
    let family = family(op);
    match family {
        Family::Contextual => Ok(Handed {
            left: context,
            right: context,
            signed: false,
        }),
        Family::Leading => Ok(Handed {
            left: context,
            right: extent(alloc, design, state, right)?,
            signed: false,
        }),
        Family::Compared | Family::Alone => {
            let a = extent(alloc, design, state, left)?;
            let b = extent(alloc, design, state, right)?;
            Ok(Handed {
                left: left_in(family, a, b, context),
                right: right_in(family, a, b, context),
                signed: a.common(b).signed,
            })
        }
    }
}
