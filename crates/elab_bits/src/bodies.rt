//! Bodies of processes, which have no loops.
ghost use Rattle.std.specs.Prelude.{◌≡◌, ◌++◌, [], if◌then◌else◌, OnOk};
ghost use Rattle.std.specs.List.{flat_map};
ghost use Rattle.elab_bits.specs.Targets.{targets};
ghost use Rattle.elab_bits.specs.Bodies.{arm_reads, assigned, body_reads, is_of};

use crate::readers::{put_all_reads, put_reads};
use crate::targets::{put_target_reads, put_targets};
use crate::touch::Touch;
use design_form::Design;
use sqlite_items::Boxed;
use std::alloc::{AllocError, Global};
use vlog_tree::{Arm, Assigns, Expr, Stmt};

/// Whether an assignment is of a kind.
#[tactic(auto, unfolding(crate::specs::Bodies::is_of))]
fn is_of(kind: Option<Assigns>, by: Assigns) -> bool
    ensures { result ≡ is_of kind by }
{
    match kind {
        None => true,
        Some(Assigns::Blocking) => by == Assigns::Blocking,
        Some(Assigns::Nonblocking) => by == Assigns::Nonblocking,
    }
}

/// The bits of a target, if the assignment is of a kind.
fn put_if(
    alloc: Global,
    design: &Design,
    kind: Option<Assigns>,
    by: Assigns,
    target: &Expr,
    bits: &mut Vec<u32>,
) -> Result<(), AllocError>
    ensures { OnOk result (bits.new.items ≡ bits.old.items ++ (if is_of kind by then targets design.now.signals target.now else [])) }
{
    if is_of(kind, by) {
        return put_targets(alloc, design, target, bits);
    }
    Ok(())
}

/// The bits that assignments of a kind assign in a statement, behind what is there.
///
/// # Errors
/// Want of memory.
#[cycle(assigning)]
#[tactic(auto, using(crate::proofs::AssignedForms::forms))]
pub(crate) fn put_assigned(
    alloc: Global,
    design: &Design,
    s: &Stmt,
    kind: Option<Assigns>,
    bits: &mut Vec<u32>,
) -> Result<(), AllocError>
    ensures { OnOk result (bits.new.items ≡ bits.old.items ++ assigned design.now.signals kind s.now) }
{
    match s {
        Stmt::Empty(_) => Ok(()),
        Stmt::Block(_, _, inner) => put_all_assigned(alloc, design, inner.as_slice(), kind, bits),
        Stmt::Assign(_, target, by, _) => put_if(alloc, design, kind, *by, target, bits),
        Stmt::If(_, _, first, other) => {
            put_assigned(alloc, design, first.get(), kind, bits)?;
            match other {
                None => Ok(()),
                Some(other) => put_assigned(alloc, design, other.get(), kind, bits),
            }
        }
        Stmt::Case(_, _, _, arms) => put_arms_assigned(alloc, design, arms.as_slice(), kind, bits),
        Stmt::For(_, _, body) => put_assigned(alloc, design, body.get(), kind, bits),
    }
}

/// The same of some statements.
#[cycle(assigning)]
fn put_all_assigned(
    alloc: Global,
    design: &Design,
    ss: &[Stmt],
    kind: Option<Assigns>,
    bits: &mut Vec<u32>,
) -> Result<(), AllocError>
    ensures { OnOk result (bits.new.items ≡ bits.old.items ++ flat_map (assigned design.now.signals kind) ss.now) }
{
    for s in ss {
        match put_assigned(alloc, design, s, kind, bits) {
            Ok(()) => {}
            Err(fault) => return Err(fault),
        }
    }
    Ok(())
}

/// The same of case items.
#[cycle(assigning)]
fn put_arms_assigned(
    alloc: Global,
    design: &Design,
    arms: &[Arm<Boxed<Stmt>>],
    kind: Option<Assigns>,
    bits: &mut Vec<u32>,
) -> Result<(), AllocError>
    ensures { OnOk result (bits.new.items ≡ bits.old.items ++ flat_map (λ arm. assigned design.now.signals kind arm.body) arms.now) }
{
    for arm in arms {
        match put_assigned(alloc, design, arm.body.get(), kind, bits) {
            Ok(()) => {}
            Err(fault) => return Err(fault),
        }
    }
    Ok(())
}

/// What a statement reads, behind what is there.
///
/// # Errors
/// Want of memory.
#[cycle(looking)]
#[tactic(auto, using(crate::proofs::BodyForms::forms))]
pub(crate) fn put_body_reads(
    alloc: Global,
    design: &Design,
    s: &Stmt,
    touches: &mut Vec<Touch>,
) -> Result<(), AllocError>
    ensures { OnOk result (touches.new.items ≡ touches.old.items ++ body_reads design.now.signals s.now) }
{
    match s {
        Stmt::Empty(_) => Ok(()),
        Stmt::Block(_, _, inner) => put_all_body_reads(alloc, design, inner.as_slice(), touches),
        Stmt::Assign(_, target, _, value) => {
            put_target_reads(alloc, design, target, touches)?;
            put_reads(alloc, design, value, touches)
        }
        Stmt::If(_, test, first, other) => {
            put_reads(alloc, design, test, touches)?;
            put_body_reads(alloc, design, first.get(), touches)?;
            match other {
                None => Ok(()),
                Some(other) => put_body_reads(alloc, design, other.get(), touches),
            }
        }
        Stmt::Case(_, _, selector, arms) => {
            put_reads(alloc, design, selector, touches)?;
            put_arms_reads(alloc, design, arms.as_slice(), touches)
        }
        Stmt::For(_, _, body) => put_body_reads(alloc, design, body.get(), touches),
    }
}

/// The same of some statements.
#[cycle(looking)]
fn put_all_body_reads(
    alloc: Global,
    design: &Design,
    ss: &[Stmt],
    touches: &mut Vec<Touch>,
) -> Result<(), AllocError>
    ensures { OnOk result (touches.new.items ≡ touches.old.items ++ flat_map (body_reads design.now.signals) ss.now) }
{
    for s in ss {
        match put_body_reads(alloc, design, s, touches) {
            Ok(()) => {}
            Err(fault) => return Err(fault),
        }
    }
    Ok(())
}

/// The same of case items, their labels first.
#[cycle(looking)]
fn put_arms_reads(
    alloc: Global,
    design: &Design,
    arms: &[Arm<Boxed<Stmt>>],
    touches: &mut Vec<Touch>,
) -> Result<(), AllocError>
    ensures { OnOk result (touches.new.items ≡ touches.old.items ++ flat_map (arm_reads design.now.signals (body_reads design.now.signals)) arms.now) }
{
    for arm in arms {
        match put_all_reads(alloc, design, arm.labels.as_slice(), touches) {
            Ok(()) => {}
            Err(fault) => return Err(fault),
        }
        match put_body_reads(alloc, design, arm.body.get(), touches) {
            Ok(()) => {}
            Err(fault) => return Err(fault),
        }
    }
    Ok(())
}
