//! Widths and signs in a `case`.
ghost use Rattle.std.specs.Prelude.{◌≡◌, IfOk};
ghost use Rattle.vlog_const.specs.Widths.{common};
ghost use Rattle.design_form.specs.Extents.{shape_of};
ghost use Rattle.design_sizes.specs.Sizes as sizes;
ghost use Rattle.design_sizes.specs.Sizes.{case_shape, common_of};
ghost use Rattle.proc_cases.specs.Full.{labels_of};

use design_form::{Design, EvalFault, Extent, size_of};
use sqlite_items::Boxed;
use std::alloc::Global;
use vlog_tree::{Arm, Expr, Stmt};

/// The larger width; signed where both are.
fn common(a: Extent, b: Extent) -> Extent
    ensures { shape_of result ≡ common (shape_of a) (shape_of b) }
{
    Extent {
        width: a.width.max(b.width),
        signed: a.signed && b.signed,
    }
}

/// The size of labels together with what there is so far.
fn labels_size(
    alloc: Global,
    design: &Design,
    start: Extent,
    labels: &[Expr],
) -> Result<Extent, EvalFault>
    ensures { IfOk result (λ x. shape_of x ≡ common_of design.now (shape_of start) labels.now) }
{
    let mut all = start;
    for label in labels {
        all = common(all, size_of(alloc, design, label)?);
    }
    Ok(all)
}

/// The size of items' labels together with what there is so far.
fn arms_size(
    alloc: Global,
    design: &Design,
    start: Extent,
    arms: &[Arm<Boxed<Stmt>>],
) -> Result<Extent, EvalFault>
    ensures { IfOk result (λ x. shape_of x ≡ common_of design.now (shape_of start) (labels_of arms.now)) }
{
    let mut all = start;
    for arm in arms {
        all = labels_size(alloc, design, all, arm.labels.as_slice())?;
    }
    Ok(all)
}

/// The size of a selector and all labels together.
pub fn case_size(
    alloc: Global,
    design: &Design,
    selector: &Expr,
    arms: &[Arm<Boxed<Stmt>>],
) -> Result<Extent, EvalFault>
    ensures { IfOk result (λ x. shape_of x ≡ case_shape design.now selector.now (labels_of arms.now)) }
{
    let start = size_of(alloc, design, selector)?;
    arms_size(alloc, design, start, arms)
}
