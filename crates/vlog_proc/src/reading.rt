//! What is read before it is assigned.
ghost use Rattle.std.specs.Prelude.{◌≡◌};
ghost use Rattle.vlog_proc.specs.Faults.{Answers, all_checked};
ghost use Rattle.vlog_proc.specs.Uses.{target_uses, uses};
ghost use Rattle.vlog_proc.specs.Paths.{is_early, ready};

use crate::fault::ProcFault;
use crate::names::{all_bits, latch};
use crate::sets::{all_among, any_among};
use design_form::Design;
use rdc_outside::Place;
use std::alloc::Global;
use std::collections::BTreeSet;
use vlog_tree::Expr;

/// Whether a name is a variable of the process of which not all bits are done.
#[tactic(auto, unfolding(crate::specs::Paths::is_early))]
fn is_early(design: &Design, bits: &BTreeSet<u32>, done: &BTreeSet<u32>, name: &[u8]) -> bool
    ensures { result ≡ is_early design.now.signals bits.now.keys done.now.keys name.now }
{
    let own = all_bits(design, name);
    any_among(bits, own) && !all_among(done, own)
}

/// A name may be read.
#[tactic(auto, unfolding(crate::specs::Paths::ready))]
fn ready(
    alloc: Global,
    design: &Design,
    bits: &BTreeSet<u32>,
    done: &BTreeSet<u32>,
    place: Place,
    name: &[u8],
) -> Result<(), ProcFault>
    ensures { Answers (λ u. u) result (ready design.now.signals bits.now.keys done.now.keys place name.now) }
{
    if is_early(design, bits, done, name) {
        return Err(latch(alloc, name, place));
    }
    Ok(())
}

/// All names that an expression reads may be read.
#[cycle(reading)]
#[tactic(auto, using(crate::proofs::UseForms::forms), unfolding(crate::specs::Faults::and_then))]
pub(crate) fn reads(
    alloc: Global,
    design: &Design,
    bits: &BTreeSet<u32>,
    done: &BTreeSet<u32>,
    e: &Expr,
) -> Result<(), ProcFault>
    ensures { Answers (λ u. u) result (uses (ready design.now.signals bits.now.keys done.now.keys) e.now) }
{
    match e {
        Expr::Number(_, _) => Ok(()),
        Expr::Name(place, name) => ready(alloc, design, bits, done, *place, name.as_slice()),
        Expr::Index(place, name, at) => {
            ready(alloc, design, bits, done, *place, name.as_slice())?;
            reads(alloc, design, bits, done, at.get())
        }
        Expr::Select(_, place, name, first, second) => {
            ready(alloc, design, bits, done, *place, name.as_slice())?;
            reads(alloc, design, bits, done, first.get())?;
            reads(alloc, design, bits, done, second.get())
        }
        Expr::Brackets(_, inner) => reads(alloc, design, bits, done, inner.get()),
        Expr::Concat(_, members) => all_reads(alloc, design, bits, done, members.as_slice()),
        Expr::Repeat(_, n, members) => {
            reads(alloc, design, bits, done, n.get())?;
            all_reads(alloc, design, bits, done, members.as_slice())
        }
        Expr::Unary(_, _, inner) => reads(alloc, design, bits, done, inner.get()),
        Expr::Binary(_, _, left, right) => {
            reads(alloc, design, bits, done, left.get())?;
            reads(alloc, design, bits, done, right.get())
        }
        Expr::Conditional(_, test, left, right) => {
            reads(alloc, design, bits, done, test.get())?;
            reads(alloc, design, bits, done, left.get())?;
            reads(alloc, design, bits, done, right.get())
        }
    }
}

/// The same of some expressions.
#[cycle(reading)]
pub(crate) fn all_reads(
    alloc: Global,
    design: &Design,
    bits: &BTreeSet<u32>,
    done: &BTreeSet<u32>,
    es: &[Expr],
) -> Result<(), ProcFault>
    ensures { Answers (λ u. u) result (all_checked (uses (ready design.now.signals bits.now.keys done.now.keys)) es.now) }
{
    for e in es {
        match reads(alloc, design, bits, done, e) {
            Ok(()) => {}
            Err(fault) => return Err(fault),
        }
    }
    Ok(())
}

/// All names that the indices of a target read may be read.
#[cycle(indexing)]
#[tactic(auto, using(crate::proofs::UseForms::target_forms), unfolding(crate::specs::Faults::and_then))]
pub(crate) fn target_reads(
    alloc: Global,
    design: &Design,
    bits: &BTreeSet<u32>,
    done: &BTreeSet<u32>,
    e: &Expr,
) -> Result<(), ProcFault>
    ensures { Answers (λ u. u) result (target_uses (ready design.now.signals bits.now.keys done.now.keys) e.now) }
{
    match e {
        Expr::Index(_, _, at) => reads(alloc, design, bits, done, at.get()),
        Expr::Select(_, _, _, first, second) => {
            reads(alloc, design, bits, done, first.get())?;
            reads(alloc, design, bits, done, second.get())
        }
        Expr::Concat(_, members) => all_target_reads(alloc, design, bits, done, members.as_slice()),
        Expr::Name(_, _)
        | Expr::Number(_, _)
        | Expr::Brackets(_, _)
        | Expr::Repeat(_, _, _)
        | Expr::Unary(_, _, _)
        | Expr::Binary(_, _, _, _)
        | Expr::Conditional(_, _, _, _) => Ok(()),
    }
}

/// The same of some targets.
#[cycle(indexing)]
fn all_target_reads(
    alloc: Global,
    design: &Design,
    bits: &BTreeSet<u32>,
    done: &BTreeSet<u32>,
    es: &[Expr],
) -> Result<(), ProcFault>
    ensures { Answers (λ u. u) result (all_checked (target_uses (ready design.now.signals bits.now.keys done.now.keys)) es.now) }
{
    for e in es {
        match target_reads(alloc, design, bits, done, e) {
            Ok(()) => {}
            Err(fault) => return Err(fault),
        }
    }
    Ok(())
}
