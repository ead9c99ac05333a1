//! What parts of expressions weigh.
ghost use Rattle.std.specs.Prelude.{◌≡◌, ◌+◌, IfOk};
ghost use Rattle.design_sizes.specs.Lists.{all_sized, sized_of};
ghost use Rattle.design_sizes.specs.Sizes.{shape_of};
ghost use Rattle.elab_weight.specs.Limits.{capped};
ghost use Rattle.elab_weight.specs.PartWeights.{binary_weight, operator_weight, part_weight, parts_weight, range_weight, select_weight, signal_width, unary_weight};

use crate::limits::{capped, plus, times};
use design_form::{Design, EvalFault, size_of};
use design_sizes::{Sizing, has_name};
use std::alloc::Global;
use vlog_tree::{Binary, Expr, Part, Unary};

/// The width of an expression by itself.
fn width_of(alloc: Global, design: &Design, e: &Expr) -> Result<u32, EvalFault>
    ensures { IfOk result (λ w. w ≡ capped (shape_of design.now e.now).width) }
{
    let size = size_of(alloc, design, e)?;
    Ok(capped(size.width as u64))
}

/// The width of a signal.
#[tactic(auto, unfolding(crate::specs::PartWeights::width_if))]
fn signal_width(design: &Design, name: &[u8]) -> u32
    ensures { result ≡ capped (signal_width design.now name.now) }
{
    match design.signal(name) {
        Some(signal) => capped(signal.bounds().width() as u64),
        None => capped(0),
    }
}

/// The select `whole` by an index that isn't constant.
#[tactic(auto, unfolding(crate::specs::PartWeights::select_weight), using(crate::proofs::Capped::products))]
fn select_weight(
    alloc: Global,
    design: &Design,
    whole: &Expr,
    name: &[u8],
    index: &Expr,
) -> Result<u32, EvalFault>
    ensures { IfOk result (λ n. n ≡ capped (select_weight design.now (shape_of design.now whole.now).width name.now index.now)) }
{
    let own = width_of(alloc, design, whole)?;
    let index = width_of(alloc, design, index)?;
    let bits = times(times(4, own), signal_width(design, name));
    Ok(times(bits, index))
}

/// The select `whole`, whose bounds are constants or whose start may be none, in a context of `width` bits.
#[tactic(auto, unfolding(crate::specs::PartWeights::range_weight))]
fn range_weight(
    alloc: Global,
    design: &Design,
    part: Part,
    whole: &Expr,
    width: u64,
    name: &[u8],
    start: &Expr,
) -> Result<u32, EvalFault>
    ensures { IfOk result (λ n. n ≡ capped (range_weight design.now part (shape_of design.now whole.now).width width name.now start.now)) }
{
    match part {
        Part::Fixed => Ok(capped(width)),
        Part::Up | Part::Down => {
            if has_name(start) {
                return select_weight(alloc, design, whole, name, start);
            }
            Ok(capped(width))
        }
    }
}

/// An operator in front of its operand, in a context of `width` bits.
#[tactic(auto, unfolding(crate::specs::PartWeights::unary_weight), using(crate::proofs::Capped::products))]
fn unary_weight(op: Unary, width: u64) -> u32
    ensures { result ≡ capped (unary_weight op width) }
{
    match op {
        Unary::Minus => times(8, capped(width)),
        _ => capped(width),
    }
}

/// An operator between its operands, in a context of `width` bits.
#[tactic(auto, unfolding(crate::specs::PartWeights::binary_weight), using(crate::proofs::Capped::products))]
fn binary_weight(
    alloc: Global,
    design: &Design,
    op: Binary,
    width: u64,
    right: &Expr,
) -> Result<u32, EvalFault>
    ensures { IfOk result (λ n. n ≡ capped (binary_weight op width (shape_of design.now right.now).width)) }
{
    let width = capped(width);
    match op {
        Binary::Add
        | Binary::Subtract
        | Binary::Less
        | Binary::AtMost
        | Binary::Greater
        | Binary::AtLeast
        | Binary::Equal
        | Binary::NotEqual
        | Binary::CaseEqual
        | Binary::CaseNotEqual => Ok(times(8, width)),
        Binary::Multiply => Ok(times(times(8, width), width)),
        Binary::ShiftLeft
        | Binary::ShiftRight
        | Binary::ArithmeticShiftLeft
        | Binary::ArithmeticShiftRight => {
            let amount = width_of(alloc, design, right)?;
            Ok(times(times(4, width), amount))
        }
        Binary::Divide
        | Binary::Remainder
        | Binary::Power
        | Binary::And
        | Binary::Xor
        | Binary::Xnor
        | Binary::Or
        | Binary::LogicalAnd
        | Binary::LogicalOr => Ok(width),
    }
}

/// An expression in a context of `width` bits, without its parts.
#[tactic(auto, using(crate::proofs::WeightForms::forms, crate::proofs::Capped::products))]
fn operator_weight(alloc: Global, design: &Design, width: u64, e: &Expr) -> Result<u32, EvalFault>
    ensures { IfOk result (λ n. n ≡ capped (operator_weight design.now width e.now)) }
{
    match e {
        Expr::Number(_, _)
        | Expr::Name(_, _)
        | Expr::Brackets(_, _)
        | Expr::Concat(_, _)
        | Expr::Repeat(_, _, _) => Ok(capped(width)),
        Expr::Index(_, name, index) => {
            let index = index.get();
            if has_name(index) {
                return select_weight(alloc, design, e, name.as_slice(), index);
            }
            Ok(capped(width))
        }
        Expr::Select(part, _, name, first, _) => {
            let (name, first) = (name.as_slice(), first.get());
            range_weight(alloc, design, *part, e, width, name, first)
        }
        Expr::Unary(_, op, _) => Ok(unary_weight(*op, width)),
        Expr::Binary(_, op, _, right) => binary_weight(alloc, design, *op, width, right.get()),
        Expr::Conditional(_, _, _, _) => Ok(times(4, capped(width))),
    }
}

/// A part.
#[tactic(auto, unfolding(crate::specs::PartWeights::part_weight))]
fn part_weight(alloc: Global, design: &Design, part: &Sizing) -> Result<u32, EvalFault>
    ensures { IfOk result (λ n. n ≡ capped (part_weight design.now (sized_of part.now))) }
{
    if part.inside {
        return Ok(capped(0));
    }
    let width = part.size.width as u64;
    if part.constant {
        return Ok(capped(width));
    }
    operator_weight(alloc, design, width, part.expr)
}

/// Parts, added to a weight so far.
pub(crate) fn parts_weight(
    alloc: Global,
    design: &Design,
    parts: &[Sizing],
    so_far: u32,
) -> Result<u32, EvalFault>
    ensures { IfOk result (λ n. n ≡ capped (so_far + parts_weight design.now (all_sized parts.now))) }
{
    let mut weight = capped(so_far as u64);
    for part in parts {
        let more = part_weight(alloc, design, part)?;
        weight = plus(weight, more);
    }
    Ok(weight)
}
