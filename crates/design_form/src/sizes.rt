//! Widths and signs of expressions in a design, for whoever goes down an expression with its contexts.
ghost use Rattle.std.specs.Prelude.{◌≡◌, [], IfOk};
ghost use Rattle.vlog_const.specs.Widths.{left_context, right_context, unary_context};
ghost use Rattle.design_form.specs.Extents.{shape_of};
ghost use Rattle.design_form.specs.Values.{valued};
ghost use Rattle.design_form.specs.State.{seen_in};

use crate::design::Design;
use crate::extent::Extent;
use crate::extents::{extent, sides, within};
use crate::fault::EvalFault;
use std::alloc::Global;
use vlog_tree::{Binary, Expr, Unary};

/// The width and the sign of an expression by itself. No state makes a difference to it.
///
/// # Errors
/// Want of memory; a width of 2^63 bits or more is that too.
pub fn size_of(alloc: Global, design: &Design, e: &Expr) -> Result<Extent, EvalFault>
    ensures { IfOk result (λ x. shape_of x ≡ (valued (seen_in design.now []) e.now).shape) }
{
    extent(alloc, design, &[], e)
}

/// The context of an operand, where the operator before it stands in a context.
///
/// # Errors
/// As `size_of`.
pub fn operand_size(
    alloc: Global,
    design: &Design,
    op: Unary,
    inner: &Expr,
    context: Extent,
) -> Result<Extent, EvalFault>
    ensures { IfOk result (λ x. shape_of x ≡ unary_context op (valued (seen_in design.now []) inner.now).shape (shape_of context)) }
{
    within(alloc, design, &[], op, inner, context)
}

/// The contexts of two operands, the left one first, where the operator between them stands in a context.
///
/// # Errors
/// As `size_of`.
pub fn operand_sizes(
    alloc: Global,
    design: &Design,
    op: Binary,
    left: &Expr,
    right: &Expr,
    context: Extent,
) -> Result<(Extent, Extent), EvalFault>
    ensures left { IfOk result (λ x. shape_of x.0 ≡ left_context op (valued (seen_in design.now []) left.now).shape (valued (seen_in design.now []) right.now).shape (shape_of context)) }
    ensures right { IfOk result (λ x. shape_of x.1 ≡ right_context op (valued (seen_in design.now []) left.now).shape (valued (seen_in design.now []) right.now).shape (shape_of context)) }
{
    let handed = sides(alloc, design, &[], op, left, right, context)?;
    Ok((handed.left, handed.right))
}
