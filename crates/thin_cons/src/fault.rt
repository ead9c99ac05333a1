//! Why a file could not be read.

ghost use Rattle.std.specs.Prelude.{◌≡◌};
ghost use Rattle.thin_cons.specs.declared.fault.LinesFault.TheVariants.{Memory};
ghost use Rattle.thin_cons.specs.declared.fault.ConsFault.TheVariants.{Memory as OutOfMemory};
ghost use Rattle.thin_cons.specs.Faults.{cons_fault_of};

use std::alloc::{AllocError, AllocFailed};

/// Why there are no lines.
#[derive(Clone, Copy, Debug, PartialEq, Eq)]
pub enum LinesFault {
    /// Memory ran out.
    Memory,
    /// The bytes are no file of such lines.
    NotOfForm,
}

impl From<AllocError> for LinesFault {
    ghost from_gives = { λ _ e. e ≡ Memory };

    fn from(_e: AllocError) -> LinesFault {
        LinesFault::Memory
    }
}

impl<T: Drop> From<AllocFailed<T>> for LinesFault {
    ghost from_gives = { λ _ e. e ≡ Memory };

    fn from(_e: AllocFailed<T>) -> LinesFault {
        LinesFault::Memory
    }
}

/// Why there are no roles.
#[derive(Clone, Copy, Debug, PartialEq, Eq)]
pub enum ConsFault {
    /// Memory ran out.
    Memory,
    /// The bytes declare nothing of the design.
    NotOfForm,
}

impl From<AllocError> for ConsFault {
    ghost from_gives = { λ _ e. e ≡ OutOfMemory };

    fn from(_e: AllocError) -> ConsFault {
        ConsFault::Memory
    }
}

impl From<LinesFault> for ConsFault {
    ghost from_gives = { λ f e. e ≡ cons_fault_of f };

    fn from(fault: LinesFault) -> ConsFault {
        match fault {
            LinesFault::Memory => ConsFault::Memory,
            LinesFault::NotOfForm => ConsFault::NotOfForm,
        }
    }
}
