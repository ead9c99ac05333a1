//! Why a reader stops.

ghost use Rattle.std.specs.Prelude.{◌≡◌};
ghost use Rattle.vlog_expr.specs.declared.stuck.Stuck.TheVariants.{Memory};

use std::alloc::{AllocError, AllocFailed};

/// Why a reader stops, at the token in front of it.
#[derive(Clone, Copy, Debug, PartialEq, Eq)]
pub enum Stuck {
    Memory,
    /// No expression goes on with the token.
    Wrong,
    /// One does, but none as shallow as is wanted.
    Deep,
}

impl From<AllocError> for Stuck {
    ghost from_gives = { λ _ why. why ≡ Memory };

    fn from(_: AllocError) -> Stuck {
        Stuck::Memory
    }
}

impl<T: Drop> From<AllocFailed<T>> for Stuck {
    ghost from_gives = { λ _ why. why ≡ Memory };

    fn from(_: AllocFailed<T>) -> Stuck {
        Stuck::Memory
    }
}
