//! Why tokens are no modules, while they are read.

ghost use Rattle.std.specs.Prelude.{◌≡◌};
ghost use Rattle.vlog_parse.specs.declared.stop.Stop.TheVariants.{Memory};

use std::alloc::{AllocError, AllocFailed};

/// Why tokens are no modules: a token is named by how many are left from it on.
#[derive(Clone, Copy, Debug, PartialEq, Eq)]
pub(crate) enum Stop {
    Memory,
    /// No list of modules begins so.
    Wrong(usize),
    /// No list of modules less than 256 deep begins so.
    Deep(usize),
}

impl From<AllocError> for Stop {
    ghost from_gives = { λ _ why. why ≡ Memory };

    fn from(_: AllocError) -> Stop {
        Stop::Memory
    }
}

impl<T: Drop> From<AllocFailed<T>> for Stop {
    ghost from_gives = { λ _ why. why ≡ Memory };

    fn from(_: AllocFailed<T>) -> Stop {
        Stop::Memory
    }
}
