//! Why a gate isn't added.

use std::alloc::{AllocError, AllocFailed};

/// Why a gate isn't added. The list is then as it was.
#[derive(Clone, Copy, Debug, PartialEq, Eq)]
pub enum GateFault {
    /// No memory for one more.
    Memory,
    /// The list has 16,777,216 gates.
    Full,
}

impl From<AllocError> for GateFault {
    ghost use Rattle.std.specs.Prelude.{◌≡◌};
    ghost use Rattle.net_gates.specs.declared.fault.GateFault.TheVariants.{Memory};

    ghost from_gives = { λ _ fault. fault ≡ Memory };

    fn from(_: AllocError) -> Self {
        GateFault::Memory
    }
}

impl<T: Drop> From<AllocFailed<T>> for GateFault {
    ghost use Rattle.std.specs.Prelude.{◌≡◌};
    ghost use Rattle.net_gates.specs.declared.fault.GateFault.TheVariants.{Memory};

    ghost from_gives = { λ _ fault. fault ≡ Memory };

    fn from(_: AllocFailed<T>) -> Self {
        GateFault::Memory
    }
}
