//! Which bits an assignment assigns for sure.
ghost use Rattle.std.specs.Prelude.{◌≡◌, ◌++◌, ◌&&◌, [], if◌then◌else◌, IfOk, OnOk};
ghost use Rattle.std.specs.List.{flat_map};
ghost use Rattle.elab_bits.specs.Targets.{targets};
ghost use Rattle.elab_bits.specs.Selects.{all_bits, constant};
ghost use Rattle.vlog_proc.specs.Paths.{certain, is_number};

use crate::names::all_bits;
use crate::sets::put_bits;
use design_form::{Design, Driver, DriverKind};
use elab_bits::drives_of_driver;
use proc_loops::copied;
use rdc_outside::Place;
use sqlite_items::Items;
use std::alloc::{AllocError, Global};
use vlog_const::{ConstFault, Env, value};
use vlog_tree::Expr;

/// The bits that a target names, behind those that are there: those that a driver with this target drives.
#[tactic(auto, using(crate::proofs::Rows::bits_touched))]
pub(crate) fn put_named(
    alloc: Global,
    design: &Design,
    place: Place,
    target: Expr,
    bits: &mut Vec<u32>,
) -> Result<(), AllocError>
    ensures { OnOk result (bits.new.items ≡ bits.old.items ++ targets design.now.signals target) }
{
    let driver = Driver {
        place,
        kind: DriverKind::Assign,
        target,
        value: Expr::Concat(place, Items::new(alloc)),
    };
    let mut touches = Vec::new(alloc);
    drives_of_driver(alloc, design, &driver, &mut touches)?;
    put_bits(bits, &touches)
}

/// Whether an index is constant.
#[tactic(auto, unfolding(crate::specs::Paths::is_number, elab_bits::specs::Selects::constant, elab_bits::specs::Selects::number_if))]
fn is_constant(alloc: Global, e: &Expr) -> Result<bool, AllocError>
    ensures { IfOk result (λ b. b ≡ is_number (constant e.now)) }
{
    match value(alloc, e, &Env::new(alloc)) {
        Ok(_) => Ok(true),
        Err(ConstFault::Memory) => Err(AllocError),
        Err(_) => Ok(false),
    }
}

/// Whether two indices are.
fn are_constant(alloc: Global, first: &Expr, second: &Expr) -> Result<bool, AllocError>
    ensures { IfOk result (λ b. b ≡ (is_number (constant first.now) && is_number (constant second.now))) }
{
    let first = is_constant(alloc, first)?;
    let second = is_constant(alloc, second)?;
    Ok(first && second)
}

/// The bits of a select, if its indices are constant.
fn put_select(
    alloc: Global,
    design: &Design,
    place: Place,
    e: &Expr,
    fixed: bool,
    bits: &mut Vec<u32>,
) -> Result<(), AllocError>
    ensures { OnOk result (bits.new.items ≡ bits.old.items ++ (if fixed then targets design.now.signals e.now else [])) }
{
    if fixed {
        return put_named(alloc, design, place, copied(alloc, e)?, bits);
    }
    Ok(())
}

/// The bits of a name, behind those that are there.
fn put_whole(design: &Design, name: &[u8], bits: &mut Vec<u32>) -> Result<(), AllocError>
    ensures { OnOk result (bits.new.items ≡ bits.old.items ++ all_bits design.now.signals name.now) }
{
    bits.extend_from_slice(all_bits(design, name))?;
    Ok(())
}

/// The bits that an assignment to a target assigns for sure, behind those that are there.
///
/// # Errors
/// Want of memory.
#[cycle(naming)]
#[tactic(auto, using(crate::proofs::CertainForms::forms))]
pub(crate) fn put_certain(
    alloc: Global,
    design: &Design,
    e: &Expr,
    bits: &mut Vec<u32>,
) -> Result<(), AllocError>
    ensures { OnOk result (bits.new.items ≡ bits.old.items ++ certain design.now.signals e.now) }
{
    match e {
        Expr::Name(_, name) => put_whole(design, name.as_slice(), bits),
        Expr::Index(place, _, at) => {
            let fixed = is_constant(alloc, at.get())?;
            put_select(alloc, design, *place, e, fixed, bits)
        }
        Expr::Select(_, place, _, first, second) => {
            let fixed = are_constant(alloc, first.get(), second.get())?;
            put_select(alloc, design, *place, e, fixed, bits)
        }
        Expr::Concat(_, members) => put_all_certain(alloc, design, members.as_slice(), bits),
        Expr::Number(_, _)
        | Expr::Brackets(_, _)
        | Expr::Repeat(_, _, _)
        | Expr::Unary(_, _, _)
        | Expr::Binary(_, _, _, _)
        | Expr::Conditional(_, _, _, _) => Ok(()),
    }
}

/// The same of some targets.
#[cycle(naming)]
fn put_all_certain(
    alloc: Global,
    design: &Design,
    es: &[Expr],
    bits: &mut Vec<u32>,
) -> Result<(), AllocError>
    ensures { OnOk result (bits.new.items ≡ bits.old.items ++ flat_map (certain design.now.signals) es.now) }
{
    for e in es {
        match put_certain(alloc, design, e, bits) {
            Ok(()) => {}
            Err(fault) => return Err(fault),
        }
    }
    Ok(())
}
