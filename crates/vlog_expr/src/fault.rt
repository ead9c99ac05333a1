//! Why tokens have no expression in front.

ghost use Rattle.std.specs.Prelude.{◌≡◌};
ghost use Rattle.vlog_expr.specs.declared.fault.ExprFault.TheVariants.{Memory};

use rdc_outside::{Place, Seq};
use std::alloc::{AllocError, AllocFailed};

/// Why tokens have no expression in front that the next one can't go on with. Each names a token, as which the end of
/// the text counts.
#[derive(Debug, Drop)]
pub enum ExprFault {
    Memory,
    /// No expression begins so, and the token is one that this profile leaves out: its bytes, and its place.
    Unsupported(Seq<u8>, Place),
    /// No expression begins so.
    Syntax(Place),
    /// No expression less than 256 deep begins so.
    TooDeep(Place),
}

impl From<AllocError> for ExprFault {
    ghost from_gives = { λ _ fault. fault ≡ Memory };

    fn from(_: AllocError) -> ExprFault {
        ExprFault::Memory
    }
}

impl<T: Drop> From<AllocFailed<T>> for ExprFault {
    ghost from_gives = { λ _ fault. fault ≡ Memory };

    fn from(_: AllocFailed<T>) -> ExprFault {
        ExprFault::Memory
    }
}
