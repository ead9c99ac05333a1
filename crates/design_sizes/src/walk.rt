//! Expressions and their parts.
ghost use Rattle.std.specs.Prelude.{◌≡◌, ◌++◌, ◌||◌, not, OnOk};
ghost use Rattle.design_form.specs.Extents.{shape_of};
ghost use Rattle.design_sizes.specs.Sizes.{below, has_name, sized, sized_alone, sized_within};
ghost use Rattle.design_sizes.specs.Lists.{all_sized, apart, are_apart};

use crate::naming::has_name;
use crate::sizing::Sizing;
use design_form::{Design, EvalFault, Extent, operand_size, operand_sizes, size_of};
use std::alloc::Global;
use vlog_tree::Expr;

/// Whether an expression is constant. What stands in a constant one is.
fn is_constant(e: &Expr, inside: bool) -> bool
    ensures { result ≡ inside || not (has_name e.now) }
{
    inside || !has_name(e)
}

/// An expression in a context and its parts.
#[cycle(parts)]
pub(crate) fn put<'a>(
    alloc: Global,
    design: &Design,
    out: &mut Vec<Sizing<'a>>,
    e: &'a Expr,
    size: Extent,
    inside: bool,
) -> Result<(), EvalFault>
    ensures { OnOk result (all_sized out.new.items ≡ all_sized out.old.items ++ sized design.now (shape_of size) inside e.now) }
{
    let constant = is_constant(e, inside);
    out.push(Sizing {
        expr: e,
        size,
        constant,
        inside,
    })?;
    put_below(alloc, design, out, e, size, constant)
}

/// What stands below an expression.
#[cycle(parts)]
#[tactic(auto, using(crate::proofs::PartForms::forms))]
fn put_below<'a>(
    alloc: Global,
    design: &Design,
    out: &mut Vec<Sizing<'a>>,
    e: &'a Expr,
    size: Extent,
    inside: bool,
) -> Result<(), EvalFault>
    ensures { OnOk result (all_sized out.new.items ≡ all_sized out.old.items ++ below design.now e.now (shape_of size) inside) }
{
    match e {
        Expr::Number(_, _) => Ok(()),
        Expr::Name(_, _) => Ok(()),
        Expr::Index(_, _, at) => put_apart(alloc, design, out, at.get(), inside),
        Expr::Select(_, _, _, first, second) => {
            put_apart(alloc, design, out, first.get(), inside)?;
            put_apart(alloc, design, out, second.get(), inside)
        }
        Expr::Brackets(_, inner) => put(alloc, design, out, inner.get(), size, inside),
        Expr::Concat(_, members) => put_members(alloc, design, out, members.as_slice(), inside),
        Expr::Repeat(_, copies, members) => {
            put_apart(alloc, design, out, copies.get(), inside)?;
            put_members(alloc, design, out, members.as_slice(), inside)
        }
        Expr::Unary(_, op, inner) => {
            let inner = inner.get();
            let context = operand_size(alloc, design, *op, inner, size)?;
            put(alloc, design, out, inner, context, inside)
        }
        Expr::Binary(_, op, left, right) => {
            let (left, right) = (left.get(), right.get());
            let (first, second) = operand_sizes(alloc, design, *op, left, right, size)?;
            put(alloc, design, out, left, first, inside)?;
            put(alloc, design, out, right, second, inside)
        }
        Expr::Conditional(_, test, left, right) => {
            put_apart(alloc, design, out, test.get(), inside)?;
            put(alloc, design, out, left.get(), size, inside)?;
            put(alloc, design, out, right.get(), size, inside)
        }
    }
}

/// An expression that stands by itself.
#[cycle(parts)]
fn put_apart<'a>(
    alloc: Global,
    design: &Design,
    out: &mut Vec<Sizing<'a>>,
    e: &'a Expr,
    inside: bool,
) -> Result<(), EvalFault>
    ensures { OnOk result (all_sized out.new.items ≡ all_sized out.old.items ++ apart design.now inside e.now) }
{
    let size = size_of(alloc, design, e)?;
    put(alloc, design, out, e, size, inside)
}

/// Members, each by itself.
#[cycle(parts)]
fn put_members<'a>(
    alloc: Global,
    design: &Design,
    out: &mut Vec<Sizing<'a>>,
    members: &'a [Expr],
    inside: bool,
) -> Result<(), EvalFault>
    ensures { OnOk result (all_sized out.new.items ≡ all_sized out.old.items ++ are_apart design.now inside members.now) }
{
    for member in members {
        match put_apart(alloc, design, out, member, inside) {
            Ok(()) => {}
            Err(fault) => return Err(fault),
        }
    }
    Ok(())
}

/// An expression by itself and its parts, behind those that are there.
///
/// # Errors
/// Want of memory; a width of 2^63 bits or more is that too.
pub fn put_alone<'a>(
    alloc: Global,
    design: &Design,
    out: &mut Vec<Sizing<'a>>,
    e: &'a Expr,
) -> Result<(), EvalFault>
    ensures { OnOk result (all_sized out.new.items ≡ all_sized out.old.items ++ sized_alone design.now e.now) }
{
    put_apart(alloc, design, out, e, false)
}

/// The same of an expression on the right of an assignment to so many bits.
///
/// # Errors
/// As `put_alone`.
pub fn put_within<'a>(
    alloc: Global,
    design: &Design,
    out: &mut Vec<Sizing<'a>>,
    width: usize,
    e: &'a Expr,
) -> Result<(), EvalFault>
    ensures { OnOk result (all_sized out.new.items ≡ all_sized out.old.items ++ sized_within design.now width e.now) }
{
    let own = size_of(alloc, design, e)?;
    let size = Extent {
        width: own.width.max(width),
        signed: own.signed,
    };
    put(alloc, design, out, e, size, false)
}
