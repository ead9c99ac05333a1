//! Widths and signs of words, which may be wider than any constant.
ghost use Rattle.std.specs.Prelude.{◌≡◌, ◌<◌, ◌^◌, false, IfOk};
ghost use Rattle.vlog_const.specs.Widths.{common, shape_in, left_in, right_in};
ghost use Rattle.design_form.specs.Extents.{shape_of};

use crate::fault::EvalFault;
use vlog_const::{Family, Shape};

/// The width and the sign of an expression by itself, or of its context.
#[derive(Clone, Copy)]
pub struct Extent {
    /// The number of bits.
    pub width: usize,
    pub signed: bool,
}

/// A width, where a word of that many bits fits memory.
pub(crate) fn possible(width: u128) -> Result<usize, EvalFault>
    ensures value { IfOk result (λ w. w ≡ width) }
    ensures bound { IfOk result (λ w. w < 2 ^ 63) }
{
    if width < 1 << 63 {
        return Ok(width as usize);
    }
    Err(EvalFault::Memory)
}

impl Extent {
    /// The larger width; signed where both are.
    pub(crate) fn common(self, other: Extent) -> Extent
        ensures { shape_of result ≡ common (shape_of self) (shape_of other) }
    {
        Extent {
            width: self.width.max(other.width),
            signed: self.signed && other.signed,
        }
    }
}

/// So many bits, without a sign.
pub(crate) fn unsigned(width: usize) -> Extent
    ensures { shape_of result ≡ record { width = width; signed = false } }
{
    Extent {
        width,
        signed: false,
    }
}

/// The extent of an expression by itself, from those of its operands.
pub(crate) fn extent_in(family: Family, a: Extent, b: Extent) -> Extent
    ensures { shape_of result ≡ shape_in family (shape_of a) (shape_of b) }
{
    match family {
        Family::Contextual => a.common(b),
        Family::Compared | Family::Alone => unsigned(1),
        Family::Leading => a,
    }
}

/// The context of the left operand.
pub(crate) fn left_in(family: Family, a: Extent, b: Extent, context: Extent) -> Extent
    ensures { shape_of result ≡ left_in family (shape_of a) (shape_of b) (shape_of context) }
{
    match family {
        Family::Contextual | Family::Leading => context,
        Family::Compared => a.common(b),
        Family::Alone => a,
    }
}

/// The context of the right operand.
pub(crate) fn right_in(family: Family, a: Extent, b: Extent, context: Extent) -> Extent
    ensures { shape_of result ≡ right_in family (shape_of a) (shape_of b) (shape_of context) }
{
    match family {
        Family::Contextual => context,
        Family::Compared => a.common(b),
        Family::Alone | Family::Leading => b,
    }
}
