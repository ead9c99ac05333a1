//! The parts of targets and statements.
ghost use Rattle.std.specs.Prelude.{◌≡◌, ◌++◌, false, OnOk, IfOk};
ghost use Rattle.std.specs.List.{flat_map};
ghost use Rattle.design_form.specs.Extents.{shape_of};
ghost use Rattle.vlog_const.specs.Widths.{common};
ghost use Rattle.design_sizes.specs.Sizes.{case_shape, common_of, sized, sized_assignment, sized_statement, sized_target};
ghost use Rattle.design_sizes.specs.Lists.{all_sized, arm_parts, labels_of};

use crate::sizing::Sizing;
use crate::walk::{put, put_alone, put_within};
use design_form::{Design, EvalFault, Extent, size_of};
use sqlite_items::Boxed;
use std::alloc::Global;
use vlog_tree::{Arm, Expr, Stmt};

/// The selects of a target, with their parts.
///
/// # Errors
/// As `put_alone`.
#[cycle(targets)]
#[tactic(auto, using(crate::proofs::TargetForms::forms))]
pub fn put_target<'a>(
    alloc: Global,
    design: &Design,
    out: &mut Vec<Sizing<'a>>,
    target: &'a Expr,
) -> Result<(), EvalFault>
    ensures { OnOk result (all_sized out.new.items ≡ all_sized out.old.items ++ sized_target design.now target.now) }
{
    match target {
        Expr::Index(_, _, _) => put_alone(alloc, design, out, target),
        Expr::Select(_, _, _, _, _) => put_alone(alloc, design, out, target),
        Expr::Concat(_, members) => put_targets(alloc, design, out, members.as_slice()),
        Expr::Number(_, _) => Ok(()),
        Expr::Name(_, _) => Ok(()),
        Expr::Brackets(_, _) => Ok(()),
        Expr::Repeat(_, _, _) => Ok(()),
        Expr::Unary(_, _, _) => Ok(()),
        Expr::Binary(_, _, _, _) => Ok(()),
        Expr::Conditional(_, _, _, _) => Ok(()),
    }
}

/// Targets side by side.
#[cycle(targets)]
fn put_targets<'a>(
    alloc: Global,
    design: &Design,
    out: &mut Vec<Sizing<'a>>,
    targets: &'a [Expr],
) -> Result<(), EvalFault>
    ensures { OnOk result (all_sized out.new.items ≡ all_sized out.old.items ++ flat_map (sized_target design.now) targets.now) }
{
    for target in targets {
        match put_target(alloc, design, out, target) {
            Ok(()) => {}
            Err(fault) => return Err(fault),
        }
    }
    Ok(())
}

/// The parts of a target, and then those of what is assigned to it.
///
/// # Errors
/// As `put_alone`.
pub fn put_assignment<'a>(
    alloc: Global,
    design: &Design,
    out: &mut Vec<Sizing<'a>>,
    target: &'a Expr,
    value: &'a Expr,
) -> Result<(), EvalFault>
    ensures { OnOk result (all_sized out.new.items ≡ all_sized out.old.items ++ sized_assignment design.now target.now value.now) }
{
    let size = size_of(alloc, design, target)?;
    put_target(alloc, design, out, target)?;
    put_within(alloc, design, out, size.width, value)
}

/// The larger width; signed where both are.
fn common(a: Extent, b: Extent) -> Extent
    ensures { shape_of result ≡ common (shape_of a) (shape_of b) }
{
    Extent {
        width: a.width.max(b.width),
        signed: a.signed && b.signed,
    }
}

/// The size of labels together with what there is so far.
fn labels_size(
    alloc: Global,
    design: &Design,
    start: Extent,
    labels: &[Expr],
) -> Result<Extent, EvalFault>
    ensures { IfOk result (λ x. shape_of x ≡ common_of design.now (shape_of start) labels.now) }
{
    let mut size = start;
    for label in labels {
        size = common(size, size_of(alloc, design, label)?);
    }
    Ok(size)
}

/// The size of a selector and all labels together.
fn case_size(
    alloc: Global,
    design: &Design,
    selector: &Expr,
    arms: &[Arm<Boxed<Stmt>>],
) -> Result<Extent, EvalFault>
    ensures { IfOk result (λ x. shape_of x ≡ case_shape design.now selector.now (labels_of arms.now)) }
{
    let mut size = size_of(alloc, design, selector)?;
    for arm in arms {
        size = labels_size(alloc, design, size, arm.labels.as_slice())?;
    }
    Ok(size)
}

/// Labels, each in the context of all.
fn put_labels<'a>(
    alloc: Global,
    design: &Design,
    out: &mut Vec<Sizing<'a>>,
    labels: &'a [Expr],
    size: Extent,
) -> Result<(), EvalFault>
    ensures { OnOk result (all_sized out.new.items ≡ all_sized out.old.items ++ flat_map (sized design.now (shape_of size) false) labels.now) }
{
    for label in labels {
        put(alloc, design, out, label, size, false)?;
    }
    Ok(())
}

/// The parts of a statement. The header of a loop is none.
///
/// # Errors
/// As `put_alone`.
#[cycle(statements)]
#[tactic(auto, using(crate::proofs::StatementForms::forms))]
pub fn put_statement<'a>(
    alloc: Global,
    design: &Design,
    out: &mut Vec<Sizing<'a>>,
    statement: &'a Stmt,
) -> Result<(), EvalFault>
    ensures { OnOk result (all_sized out.new.items ≡ all_sized out.old.items ++ sized_statement design.now statement.now) }
{
    match statement {
        Stmt::Empty(_) => Ok(()),
        Stmt::Block(_, _, inner) => put_statements(alloc, design, out, inner.as_slice()),
        Stmt::Assign(_, target, _, value) => put_assignment(alloc, design, out, target, value),
        Stmt::If(_, test, yes, no) => {
            put_alone(alloc, design, out, test)?;
            put_statement(alloc, design, out, yes.get())?;
            match no {
                None => Ok(()),
                Some(no) => put_statement(alloc, design, out, no.get()),
            }
        }
        Stmt::Case(_, _, selector, arms) => {
            let arms = arms.as_slice();
            let size = case_size(alloc, design, selector, arms)?;
            put(alloc, design, out, selector, size, false)?;
            put_arms(alloc, design, out, arms, size)
        }
        Stmt::For(_, _, body) => put_statement(alloc, design, out, body.get()),
    }
}

/// The parts of statements.
#[cycle(statements)]
fn put_statements<'a>(
    alloc: Global,
    design: &Design,
    out: &mut Vec<Sizing<'a>>,
    statements: &'a [Stmt],
) -> Result<(), EvalFault>
    ensures { OnOk result (all_sized out.new.items ≡ all_sized out.old.items ++ flat_map (sized_statement design.now) statements.now) }
{
    for statement in statements {
        match put_statement(alloc, design, out, statement) {
            Ok(()) => {}
            Err(fault) => return Err(fault),
        }
    }
    Ok(())
}

/// The parts of case items.
#[cycle(statements)]
fn put_arms<'a>(
    alloc: Global,
    design: &Design,
    out: &mut Vec<Sizing<'a>>,
    arms: &'a [Arm<Boxed<Stmt>>],
    size: Extent,
) -> Result<(), EvalFault>
    ensures { OnOk result (all_sized out.new.items ≡ all_sized out.old.items ++ flat_map (arm_parts design.now (shape_of size)) arms.now) }
{
    for arm in arms {
        match put_labels(alloc, design, out, arm.labels.as_slice(), size) {
            Ok(()) => {}
            Err(fault) => return Err(fault),
        }
        match put_statement(alloc, design, out, arm.body.get()) {
            Ok(()) => {}
            Err(fault) => return Err(fault),
        }
    }
    Ok(())
}
