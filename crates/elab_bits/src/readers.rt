//! What expressions read.
ghost use Rattle.std.specs.Prelude.{◌≡◌, ◌++◌, OnOk};
ghost use Rattle.std.specs.List.{flat_map};
ghost use Rattle.elab_bits.specs.Touches.{touched};
ghost use Rattle.elab_bits.specs.Selects.{indexed, selected};
ghost use Rattle.elab_bits.specs.Reads.{reads};

use crate::selects::{all_bits, indexed, selected};
use crate::touch::{Touch, put};
use design_form::Design;
use rdc_outside::Place;
use std::alloc::{AllocError, Global};
use vlog_tree::{Expr, Part};

/// The bits of `name[at]`, behind what is there.
pub(crate) fn put_indexed(
    alloc: Global,
    design: &Design,
    place: Place,
    name: &[u8],
    at: &Expr,
    touches: &mut Vec<Touch>,
) -> Result<(), AllocError>
    ensures { OnOk result (touches.new.items ≡ touches.old.items ++ touched place (indexed design.now.signals name.now at.now)) }
{
    let bits = indexed(alloc, design, name, at)?;
    put(touches, place, bits)
}

/// The bits of a select, behind what is there.
fn put_selected(
    alloc: Global,
    design: &Design,
    part: Part,
    place: Place,
    name: &[u8],
    first: &Expr,
    second: &Expr,
    touches: &mut Vec<Touch>,
) -> Result<(), AllocError>
    ensures { OnOk result (touches.new.items ≡ touches.old.items ++ touched place (selected design.now.signals part name.now first.now second.now)) }
{
    let bits = selected(alloc, design, part, name, first, second)?;
    put(touches, place, bits)
}

/// What an expression reads, behind what is there.
///
/// # Errors
/// Want of memory.
#[cycle(reading)]
#[tactic(auto, using(crate::proofs::ReadForms::forms))]
pub(crate) fn put_reads(
    alloc: Global,
    design: &Design,
    e: &Expr,
    touches: &mut Vec<Touch>,
) -> Result<(), AllocError>
    ensures { OnOk result (touches.new.items ≡ touches.old.items ++ reads design.now.signals e.now) }
{
    match e {
        Expr::Number(_, _) => Ok(()),
        Expr::Name(place, name) => put(touches, *place, all_bits(design, name.as_slice())),
        Expr::Index(place, name, at) => {
            put_indexed(alloc, design, *place, name.as_slice(), at.get(), touches)?;
            put_reads(alloc, design, at.get(), touches)
        }
        Expr::Select(part, place, name, first, second) => {
            let (first, second) = (first.get(), second.get());
            put_selected(
                alloc,
                design,
                *part,
                *place,
                name.as_slice(),
                first,
                second,
                touches,
            )?;
            put_reads(alloc, design, first, touches)?;
            put_reads(alloc, design, second, touches)
        }
        Expr::Brackets(_, inner) => put_reads(alloc, design, inner.get(), touches),
        Expr::Concat(_, members) => put_all_reads(alloc, design, members.as_slice(), touches),
        Expr::Repeat(_, n, members) => {
            put_reads(alloc, design, n.get(), touches)?;
            put_all_reads(alloc, design, members.as_slice(), touches)
        }
        Expr::Unary(_, _, inner) => put_reads(alloc, design, inner.get(), touches),
        Expr::Binary(_, _, left, right) => {
            put_reads(alloc, design, left.get(), touches)?;
            put_reads(alloc, design, right.get(), touches)
        }
        Expr::Conditional(_, test, left, right) => {
            put_reads(alloc, design, test.get(), touches)?;
            put_reads(alloc, design, left.get(), touches)?;
            put_reads(alloc, design, right.get(), touches)
        }
    }
}

/// What some expressions read, behind what is there.
///
/// # Errors
/// Want of memory.
#[cycle(reading)]
pub(crate) fn put_all_reads(
    alloc: Global,
    design: &Design,
    es: &[Expr],
    touches: &mut Vec<Touch>,
) -> Result<(), AllocError>
    ensures { OnOk result (touches.new.items ≡ touches.old.items ++ flat_map (reads design.now.signals) es.now) }
{
    for e in es {
        match put_reads(alloc, design, e, touches) {
            Ok(()) => {}
            Err(fault) => return Err(fault),
        }
    }
    Ok(())
}
