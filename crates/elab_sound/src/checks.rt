//! What one part of an expression must meet.
ghost use Rattle.std.specs.Prelude.{◌≡◌};
ghost use Rattle.vlog_tree.specs.declared.expr.Part.TheVariants.{Fixed};
ghost use Rattle.vlog_const.specs.Constants.{worth_in};
ghost use Rattle.vlog_const.specs.Worths.{Or_fault, Worth};
ghost use Rattle.design_form.specs.Extents.{shape_of};
ghost use Rattle.design_sizes.specs.Lists.{sized_of};
ghost use Rattle.elab_names.specs.Answers.{Answers};
ghost use Rattle.elab_sound.specs.Selects.{checked, computed, count_checked, fixed_checked, in_range, index_checked, operator_checked, part_checked, start};

use crate::ranges::{holds, range_of, reaches, spans};
use design_form::{Design, Extent};
use design_sizes::{Sizing, has_name};
use elab_names::{ElabFault, alone};
use rdc_outside::Place;
use std::alloc::Global;
use vlog_const::{Env, Shape, Whole, is_division, is_power, value_in};
use vlog_tree::{Binary, Expr, Part};

/// A select in range, or the fault at its place.
#[tactic(auto, unfolding(crate::specs::Selects::in_range))]
fn in_range(place: Place, holds: bool) -> Result<(), ElabFault>
    ensures { Answers (λ u. u) result (in_range place holds) }
{
    if holds {
        return Ok(());
    }
    Err(ElabFault::BadRange(place))
}

/// A bit by a constant index.
#[tactic(auto, unfolding(crate::specs::Selects::fixed_checked, elab_names::specs::Answers::and_then))]
pub(crate) fn fixed(
    alloc: Global,
    design: &Design,
    place: Place,
    name: &[u8],
    index: &Expr,
) -> Result<(), ElabFault>
    ensures { Answers (λ u. u) result (fixed_checked design.now place name.now index.now) }
{
    let index = Whole::of(alone(alloc, index)?);
    in_range(place, holds(range_of(design, name), index))
}

/// A bit by an index, which need not be a constant.
#[tactic(auto, unfolding(crate::specs::Selects::index_checked))]
fn bit(
    alloc: Global,
    design: &Design,
    place: Place,
    name: &[u8],
    index: &Expr,
) -> Result<(), ElabFault>
    ensures { Answers (λ u. u) result (index_checked design.now place name.now index.now) }
{
    if has_name(index) {
        return Ok(());
    }
    fixed(alloc, design, place, name, index)
}

/// Where a part begins, if that is a constant.
#[tactic(auto, unfolding(crate::specs::Selects::start, crate::specs::Selects::known_start, elab_names::specs::Answers::and_then))]
fn start(alloc: Global, index: &Expr) -> Result<Option<Whole>, ElabFault>
    ensures { Answers (λ o. o) result (start index.now) }
{
    if has_name(index) {
        return Ok(None);
    }
    let index = alone(alloc, index)?;
    Ok(Some(Whole::of(index)))
}

/// A part between two bounds.
#[tactic(auto, unfolding(crate::specs::Selects::part_checked, elab_names::specs::Answers::and_then))]
fn part_between(
    alloc: Global,
    design: &Design,
    place: Place,
    name: &[u8],
    first: &Expr,
    second: &Expr,
) -> Result<(), ElabFault>
    ensures { Answers (λ u. u) result (part_checked design.now Fixed place name.now first.now second.now) }
{
    let first = alone(alloc, first)?;
    let second = alone(alloc, second)?;
    let holds = spans(range_of(design, name), Whole::of(first), Whole::of(second));
    in_range(place, holds)
}

/// A part of some bits.
#[tactic(auto, unfolding(crate::specs::Selects::part_checked, elab_names::specs::Answers::and_then))]
fn part(
    alloc: Global,
    design: &Design,
    how: Part,
    place: Place,
    name: &[u8],
    first: &Expr,
    second: &Expr,
) -> Result<(), ElabFault>
    ensures { Answers (λ u. u) result (part_checked design.now how place name.now first.now second.now) }
{
    match how {
        Part::Fixed => part_between(alloc, design, place, name, first, second),
        Part::Up | Part::Down => {
            let start = start(alloc, first)?;
            let count = Whole::of(alone(alloc, second)?).count();
            in_range(place, reaches(how, range_of(design, name), start, count))
        }
    }
}

/// A number of copies.
#[tactic(auto, unfolding(crate::specs::Selects::count_checked, elab_names::specs::Answers::and_then))]
fn count(alloc: Global, place: Place, copies: &Expr) -> Result<(), ElabFault>
    ensures { Answers (λ u. u) result (count_checked place copies.now) }
{
    let copies = Whole::of(alone(alloc, copies)?);
    in_range(place, !copies.negative)
}

/// A context for constants, of which one of 129 bits is as one of more.
#[tactic(auto, using(crate::proofs::Contexts::past))]
fn context_of(size: Extent) -> Shape
    ensures { (r : Or_fault Worth) → worth_in result r ≡ worth_in (shape_of size) r }
{
    if 128 < size.width {
        return Shape {
            width: 129,
            signed: size.signed,
        };
    }
    Shape {
        width: size.width as u32,
        signed: size.signed,
    }
}

/// An expression that has a value as a constant in its context.
fn computed(alloc: Global, e: &Expr, size: Extent) -> Result<(), ElabFault>
    ensures { Answers (λ u. u) result (computed (shape_of size) e.now) }
{
    match value_in(alloc, e, &Env::new(alloc), context_of(size)) {
        Ok(_) => Ok(()),
        Err(cause) => Err(ElabFault::from(cause)),
    }
}

/// An operator.
#[tactic(auto, unfolding(crate::specs::Selects::operator_checked, design_form::specs::Values::is_computed))]
fn operator(alloc: Global, op: Binary, e: &Expr, size: Extent) -> Result<(), ElabFault>
    ensures { Answers (λ u. u) result (operator_checked op (shape_of size) e.now) }
{
    if is_division(op) || is_power(op) {
        return computed(alloc, e, size);
    }
    Ok(())
}

/// A part in its context.
#[tactic(auto, unfolding(crate::specs::Selects::checked, crate::specs::Selects::form_checked))]
pub(crate) fn checked(alloc: Global, design: &Design, sizing: &Sizing) -> Result<(), ElabFault>
    ensures { Answers (λ u. u) result (checked design.now (sized_of sizing.now)) }
{
    match sizing.expr {
        Expr::Index(place, name, index) => {
            bit(alloc, design, *place, name.as_slice(), index.get())
        }
        Expr::Select(how, place, name, first, second) => {
            let (first, second) = (first.get(), second.get());
            part(alloc, design, *how, *place, name.as_slice(), first, second)
        }
        Expr::Repeat(place, copies, _) => count(alloc, *place, copies.get()),
        Expr::Binary(_, op, _, _) => operator(alloc, *op, sizing.expr, sizing.size),
        Expr::Number(_, _) => Ok(()),
        Expr::Name(_, _) => Ok(()),
        Expr::Brackets(_, _) => Ok(()),
        Expr::Concat(_, _) => Ok(()),
        Expr::Unary(_, _, _) => Ok(()),
        Expr::Conditional(_, _, _, _) => Ok(()),
    }
}
