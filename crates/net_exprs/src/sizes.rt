//! Widths and signs of expressions, which are those of the design.
ghost use Rattle.std.specs.Prelude.{◌≡◌, ℕ, ◌<◌, ◌^◌, List, IfOk, IfErr};
ghost use Rattle.vlog_const.specs.declared.shape.Shape.{Shape};
ghost use Rattle.vlog_const.specs.Widths.{common, left_context, right_context, unary_context};
ghost use Rattle.design_form.specs.Extents.{shape_of};
ghost use Rattle.net_gates.specs.declared.fault.GateFault.TheVariants.{Memory};
ghost use Rattle.net_exprs.specs.Operators.{between};
ghost use Rattle.net_exprs.specs.Names.{wired_in};
ghost use Rattle.net_exprs.specs.Lowered.{lowered};

use design_form::{Design, Extent, operand_size, operand_sizes, size_of};
use net_gates::GateFault;
use std::alloc::Global;
use vlog_const::{Family, family};
use vlog_tree::{Binary, Expr, Unary};

/// The shape of an expression by itself.
pub fn extent(alloc: Global, design: &Design, e: &Expr) -> Result<Extent, GateFault>
    ensures shape { IfOk result (λ x. (nodes : List ℕ) → shape_of x ≡ (lowered (wired_in design.now nodes) e.now).shape) }
    ensures fault { IfErr result (λ fault. fault ≡ Memory) }
{
    match size_of(alloc, design, e) {
        Ok(extent) => Ok(extent),
        Err(_) => Err(GateFault::Memory),
    }
}

/// The context of an operand.
pub(crate) fn within(
    alloc: Global,
    design: &Design,
    op: Unary,
    inner: &Expr,
    context: Extent,
) -> Result<Extent, GateFault>
    ensures shape { IfOk result (λ x. (nodes : List ℕ) → shape_of x ≡ unary_context op (lowered (wired_in design.now nodes) inner.now).shape (shape_of context)) }
    ensures fault { IfErr result (λ fault. fault ≡ Memory) }
{
    match operand_size(alloc, design, op, inner, context) {
        Ok(extent) => Ok(extent),
        Err(_) => Err(GateFault::Memory),
    }
}

/// The contexts of two operands, the left one first.
pub(crate) fn sides(
    alloc: Global,
    design: &Design,
    op: Binary,
    left: &Expr,
    right: &Expr,
    context: Extent,
) -> Result<(Extent, Extent), GateFault>
    ensures left { IfOk result (λ x. (nodes : List ℕ) → shape_of x.0 ≡ left_context op (lowered (wired_in design.now nodes) left.now).shape (lowered (wired_in design.now nodes) right.now).shape (shape_of context)) }
    ensures right { IfOk result (λ x. (nodes : List ℕ) → shape_of x.1 ≡ right_context op (lowered (wired_in design.now nodes) left.now).shape (lowered (wired_in design.now nodes) right.now).shape (shape_of context)) }
    ensures fault { IfErr result (λ fault. fault ≡ Memory) }
{
    match operand_sizes(alloc, design, op, left, right, context) {
        Ok(extents) => Ok(extents),
        Err(_) => Err(GateFault::Memory),
    }
}

/// Whether both operands are signed, where an operator compares them.
pub(crate) fn both_signed(
    alloc: Global,
    design: &Design,
    op: Binary,
    left: &Expr,
    right: &Expr,
) -> Result<bool, GateFault>
    ensures signed { IfOk result (λ s. (nodes : List ℕ) (c : Shape) (x y : List ℕ) → between op s c x y ≡ between op (common (lowered (wired_in design.now nodes) left.now).shape (lowered (wired_in design.now nodes) right.now).shape).signed c x y) }
    ensures fault { IfErr result (λ fault. fault ≡ Memory) }
{
    match family(op) {
        Family::Compared => {
            let a = extent(alloc, design, left)?;
            let b = extent(alloc, design, right)?;
            Ok(a.signed && b.signed)
        }
        Family::Contextual => Ok(false),
        Family::Leading => Ok(false),
        Family::Alone => Ok(false),
    }
}

/// A width, where a word of that many nodes fits memory.
pub(crate) fn possible(width: u128) -> Result<usize, GateFault>
    ensures value { IfOk result (λ w. w ≡ width) }
    ensures bound { IfOk result (λ w. w < 2 ^ 63) }
    ensures fault { IfErr result (λ fault. fault ≡ Memory) }
{
    if width < 1 << 63 {
        return Ok(width as usize);
    }
    Err(GateFault::Memory)
}
