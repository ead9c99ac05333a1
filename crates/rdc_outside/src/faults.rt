//! Why a call of the outside fails.

use std::alloc::{AllocError, AllocFailed};

/// Why a load answers no bytes.
#[derive(Clone, Copy, Debug, PartialEq, Eq)]
pub enum LoadFault {
    /// There is no memory for the bytes.
    Memory,
    /// There is no file of that name.
    Absent,
    /// The file has more bytes than were asked for at most.
    TooBig,
    /// The file is there, or may be, and can't be read.
    Failed,
}

impl From<AllocError> for LoadFault {
    ghost use Rattle.std.specs.Prelude.{◌≡◌};
    ghost use Rattle.rdc_outside.specs.declared.faults.LoadFault.TheVariants.{Memory};

    ghost from_gives = { λ _ fault. fault ≡ Memory };

    fn from(_: AllocError) -> Self {
        LoadFault::Memory
    }
}

impl<T: Drop> From<AllocFailed<T>> for LoadFault {
    ghost use Rattle.std.specs.Prelude.{◌≡◌};
    ghost use Rattle.rdc_outside.specs.declared.faults.LoadFault.TheVariants.{Memory};

    ghost from_gives = { λ _ fault. fault ≡ Memory };

    fn from(_: AllocFailed<T>) -> Self {
        LoadFault::Memory
    }
}

/// Why a save saves nothing that can be relied on.
#[derive(Clone, Copy, Debug, PartialEq, Eq)]
pub enum SaveFault {
    /// The file may have any bytes now, or be missing.
    Failed,
}

/// Why a write takes nothing.
#[derive(Clone, Copy, Debug, PartialEq, Eq)]
pub enum SinkFault {
    /// Nothing of the piece was taken.
    Failed,
}

/// Why a form in memory can't be made.
#[derive(Clone, Copy, Debug, PartialEq, Eq)]
pub enum NewFault {
    /// There is no memory for the room.
    Memory,
}

impl From<AllocError> for NewFault {
    ghost use Rattle.std.specs.Prelude.{◌≡◌};
    ghost use Rattle.rdc_outside.specs.declared.faults.NewFault.TheVariants.{Memory};

    ghost from_gives = { λ _ fault. fault ≡ Memory };

    fn from(_: AllocError) -> Self {
        NewFault::Memory
    }
}

impl<T: Drop> From<AllocFailed<T>> for NewFault {
    ghost use Rattle.std.specs.Prelude.{◌≡◌};
    ghost use Rattle.rdc_outside.specs.declared.faults.NewFault.TheVariants.{Memory};

    ghost from_gives = { λ _ fault. fault ≡ Memory };

    fn from(_: AllocFailed<T>) -> Self {
        NewFault::Memory
    }
}
