//! Targets of assignments.
ghost use Rattle.std.specs.Prelude.{◌≡◌, ◌++◌, OnOk};
ghost use Rattle.std.specs.List.{flat_map};
ghost use Rattle.elab_bits.specs.Targets.{target_reads, targets};

use crate::readers::put_reads;
use crate::selects::{all_bits, indexed, selected};
use crate::touch::Touch;
use design_form::Design;
use std::alloc::{AllocError, Global};
use vlog_tree::Expr;

/// Bits, behind what is there.
pub(crate) fn put_bits(bits: &mut Vec<u32>, more: &[u32]) -> Result<(), AllocError>
    ensures { OnOk result (bits.new.items ≡ bits.old.items ++ more.now) }
{
    bits.extend_from_slice(more)?;
    Ok(())
}

/// The bits that a target names, behind what is there.
///
/// # Errors
/// Want of memory.
#[cycle(naming)]
#[tactic(auto, using(crate::proofs::TargetForms::forms))]
pub(crate) fn put_targets(
    alloc: Global,
    design: &Design,
    e: &Expr,
    bits: &mut Vec<u32>,
) -> Result<(), AllocError>
    ensures { OnOk result (bits.new.items ≡ bits.old.items ++ targets design.now.signals e.now) }
{
    match e {
        Expr::Name(_, name) => put_bits(bits, all_bits(design, name.as_slice())),
        Expr::Index(_, name, at) => {
            let more = indexed(alloc, design, name.as_slice(), at.get())?;
            put_bits(bits, more)
        }
        Expr::Select(part, _, name, first, second) => {
            let (first, second) = (first.get(), second.get());
            let more = selected(alloc, design, *part, name.as_slice(), first, second)?;
            put_bits(bits, more)
        }
        Expr::Concat(_, members) => put_all_targets(alloc, design, members.as_slice(), bits),
        Expr::Number(_, _)
        | Expr::Brackets(_, _)
        | Expr::Repeat(_, _, _)
        | Expr::Unary(_, _, _)
        | Expr::Binary(_, _, _, _)
        | Expr::Conditional(_, _, _, _) => Ok(()),
    }
}

/// The bits that some targets name, behind what is there.
///
/// # Errors
/// Want of memory.
#[cycle(naming)]
pub(crate) fn put_all_targets(
    alloc: Global,
    design: &Design,
    es: &[Expr],
    bits: &mut Vec<u32>,
) -> Result<(), AllocError>
    ensures { OnOk result (bits.new.items ≡ bits.old.items ++ flat_map (targets design.now.signals) es.now) }
{
    for e in es {
        match put_targets(alloc, design, e, bits) {
            Ok(()) => {}
            Err(fault) => return Err(fault),
        }
    }
    Ok(())
}

/// What the indices of a target read, behind what is there.
///
/// # Errors
/// Want of memory.
#[cycle(indexing)]
#[tactic(auto, using(crate::proofs::IndexForms::forms))]
pub(crate) fn put_target_reads(
    alloc: Global,
    design: &Design,
    e: &Expr,
    touches: &mut Vec<Touch>,
) -> Result<(), AllocError>
    ensures { OnOk result (touches.new.items ≡ touches.old.items ++ target_reads design.now.signals e.now) }
{
    match e {
        Expr::Index(_, _, at) => put_reads(alloc, design, at.get(), touches),
        Expr::Select(_, _, _, first, second) => {
            put_reads(alloc, design, first.get(), touches)?;
            put_reads(alloc, design, second.get(), touches)
        }
        Expr::Concat(_, members) => {
            put_all_target_reads(alloc, design, members.as_slice(), touches)
        }
        Expr::Name(_, _)
        | Expr::Number(_, _)
        | Expr::Brackets(_, _)
        | Expr::Repeat(_, _, _)
        | Expr::Unary(_, _, _)
        | Expr::Binary(_, _, _, _)
        | Expr::Conditional(_, _, _, _) => Ok(()),
    }
}

/// What the indices of some targets read, behind what is there.
///
/// # Errors
/// Want of memory.
#[cycle(indexing)]
pub(crate) fn put_all_target_reads(
    alloc: Global,
    design: &Design,
    es: &[Expr],
    touches: &mut Vec<Touch>,
) -> Result<(), AllocError>
    ensures { OnOk result (touches.new.items ≡ touches.old.items ++ flat_map (target_reads design.now.signals) es.now) }
{
    for e in es {
        match put_target_reads(alloc, design, e, touches) {
            Ok(()) => {}
            Err(fault) => return Err(fault),
        }
    }
    Ok(())
}
