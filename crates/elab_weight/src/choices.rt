//! What the choices of a statement weigh.
ghost use Rattle.std.specs.Prelude.{◌≡◌, ◌+◌, ◌*◌, IfOk};
ghost use Rattle.std.specs.List.{flat_map, sum_by};
ghost use Rattle.std.specs.Option.{option_map, unwrap_or};
ghost use Rattle.vlog_const.specs.Widths.{common};
ghost use Rattle.design_form.specs.Extents as extents;
ghost use Rattle.design_sizes.specs.Sizes.{case_shape, common_of};
ghost use Rattle.elab_weight.specs.Limits.{capped};
ghost use Rattle.elab_weight.specs.Choices.{arm_of, choice_weight};

use crate::limits::{capped, plus, times};
use design_form::{Design, EvalFault, Extent, size_of};
use sqlite_items::Boxed;
use std::alloc::Global;
use vlog_tree::{Arm, Expr, Stmt};

/// The larger width; signed where both are.
fn common(a: Extent, b: Extent) -> Extent
    ensures { extents.shape_of result ≡ common (extents.shape_of a) (extents.shape_of b) }
{
    Extent {
        width: a.width.max(b.width),
        signed: a.signed && b.signed,
    }
}

/// What a context and expressions have in common.
#[tactic(auto, unfolding(design_sizes::specs::Sizes::common_of))]
fn common_of(
    alloc: Global,
    design: &Design,
    context: Extent,
    es: &[Expr],
) -> Result<Extent, EvalFault>
    ensures { IfOk result (λ x. extents.shape_of x ≡ common_of design.now (extents.shape_of context) es.now) }
{
    let mut context = context;
    for e in es {
        let size = size_of(alloc, design, e)?;
        context = common(context, size);
    }
    Ok(context)
}

/// The width at which a selector and all labels are compared.
fn case_width(
    alloc: Global,
    design: &Design,
    selector: &Expr,
    arms: &[Arm<Boxed<Stmt>>],
) -> Result<u64, EvalFault>
    ensures { IfOk result (λ w. w ≡ (case_shape design.now selector.now (flat_map (λ a. a.labels) arms.now)).width) }
{
    let mut context = size_of(alloc, design, selector)?;
    for arm in arms {
        context = common_of(alloc, design, context, arm.labels.as_slice())?;
    }
    Ok(context.width as u64)
}

/// What selects among so many bits.
#[tactic(auto, using(crate::proofs::Capped::products))]
fn selection(bits: u64) -> u32
    ensures { result ≡ capped (4 * bits) }
{
    times(4, capped(bits))
}

/// So many labels, each compared at a width.
#[tactic(auto, using(crate::proofs::Capped::products, crate::proofs::Capped::sums))]
fn labels(count: usize, bits: u64, width: u64) -> u32
    ensures { result ≡ capped (count * (4 * bits + 8 * width)) }
{
    let label = plus(selection(bits), times(8, capped(width)));
    times(capped(count as u64), label)
}

/// What the choices of a statement weigh that assigns so many bits.
#[cycle(choices)]
#[tactic(auto, using(crate::proofs::ChoiceForms::forms, crate::proofs::Capped::sums))]
pub(crate) fn choice_weight(
    alloc: Global,
    design: &Design,
    s: &Stmt,
    bits: u64,
) -> Result<u32, EvalFault>
    ensures { IfOk result (λ n. n ≡ capped (choice_weight design.now bits s.now)) }
{
    match s {
        Stmt::Empty(_) | Stmt::Assign(_, _, _, _) => Ok(capped(0)),
        Stmt::Block(_, _, ss) => each_weight(alloc, design, ss.as_slice(), bits),
        Stmt::If(_, _, first, other) => {
            let first = match choice_weight(alloc, design, first.get(), bits) {
                Ok(first) => first,
                Err(fault) => return Err(fault),
            };
            let other = match other_weight(alloc, design, other, bits) {
                Ok(other) => other,
                Err(fault) => return Err(fault),
            };
            Ok(plus(plus(selection(bits), first), other))
        }
        Stmt::Case(_, _, selector, arms) => {
            let arms = arms.as_slice();
            let width = match case_width(alloc, design, selector, arms) {
                Ok(width) => width,
                Err(fault) => return Err(fault),
            };
            arms_weight(alloc, design, arms, bits, width)
        }
        Stmt::For(_, _, body) => choice_weight(alloc, design, body.get(), bits),
    }
}

/// That of an else side.
#[cycle(choices)]
fn other_weight(
    alloc: Global,
    design: &Design,
    other: &Option<Boxed<Stmt>>,
    bits: u64,
) -> Result<u32, EvalFault>
    ensures { IfOk result (λ n. n ≡ capped (unwrap_or (option_map (choice_weight design.now bits) other.now) 0)) }
{
    match other {
        Some(other) => choice_weight(alloc, design, other.get(), bits),
        None => Ok(capped(0)),
    }
}

/// Those of statements.
#[cycle(choices)]
fn each_weight(alloc: Global, design: &Design, ss: &[Stmt], bits: u64) -> Result<u32, EvalFault>
    ensures { IfOk result (λ n. n ≡ capped (sum_by (choice_weight design.now bits) ss.now)) }
{
    let mut weight = capped(0);
    for s in ss {
        let more = match choice_weight(alloc, design, s, bits) {
            Ok(more) => more,
            Err(fault) => return Err(fault),
        };
        weight = plus(weight, more);
    }
    Ok(weight)
}

/// Those of case items whose labels are compared at a width.
#[cycle(choices)]
fn arms_weight(
    alloc: Global,
    design: &Design,
    arms: &[Arm<Boxed<Stmt>>],
    bits: u64,
    width: u64,
) -> Result<u32, EvalFault>
    ensures { IfOk result (λ n. n ≡ capped (sum_by (arm_of design.now bits width) arms.now)) }
{
    let mut weight = capped(0);
    for arm in arms {
        let body = match choice_weight(alloc, design, arm.body.get(), bits) {
            Ok(body) => body,
            Err(fault) => return Err(fault),
        };
        let labels = labels(arm.labels.as_slice().len(), bits, width);
        weight = plus(weight, plus(labels, body));
    }
    Ok(weight)
}
