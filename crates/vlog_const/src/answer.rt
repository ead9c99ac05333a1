//! What a constant is worth, and why an expression has no value.

use rdc_outside::Place;
use std::alloc::{AllocError, AllocFailed};

/// A constant: the lowest `width` bits, at most 128, and whether they are read as a signed number.
#[derive(Clone, Copy, Debug, PartialEq, Eq)]
pub struct ConstValue {
    /// Below 2^width, the least significant bit lowest.
    pub bits: u128,
    pub width: u32,
    pub signed: bool,
}

/// Why an expression has no value. Each place is that of the first token of what is named.
#[derive(Clone, Copy, Debug, PartialEq, Eq)]
pub enum ConstFault {
    /// There is no memory for what is left to be computed.
    Memory,
    /// A name without a value, or a negative exponent.
    NotConstant(Place),
    /// Something of more than 128 bits.
    TooWide(Place),
    /// A divisor that is 0.
    ZeroDivisor(Place),
}

impl From<AllocError> for ConstFault {
    ghost use Rattle.std.specs.Prelude.{◌≡◌};
    ghost use Rattle.vlog_const.specs.declared.answer.ConstFault.TheVariants.{Memory};

    ghost from_gives = { λ _ fault. fault ≡ Memory };

    fn from(_: AllocError) -> Self {
        ConstFault::Memory
    }
}

impl<T: Drop> From<AllocFailed<T>> for ConstFault {
    ghost use Rattle.std.specs.Prelude.{◌≡◌};
    ghost use Rattle.vlog_const.specs.declared.answer.ConstFault.TheVariants.{Memory};

    ghost from_gives = { λ _ fault. fault ≡ Memory };

    fn from(_: AllocFailed<T>) -> Self {
        ConstFault::Memory
    }
}
