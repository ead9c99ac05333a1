//! Why a file has no lines.

ghost use Rattle.std.specs.Prelude.{◌≡◌};
ghost use Rattle.cons_file.specs.declared.fault.ConsFault.TheVariants.{Memory};

use std::alloc::{AllocError, AllocFailed};

/// Why there are no lines. A number is that of the line.
#[derive(Clone, Copy, Debug, PartialEq, Eq)]
pub enum ConsFault {
    /// Memory ran out.
    Memory,
    /// The first line that isn't blank isn't `rdc 1`; line 1 where there is none.
    Version(u32),
    /// The first line that has no form.
    BadLine(u32),
}

impl From<AllocError> for ConsFault {
    ghost from_gives = { λ _ e. e ≡ Memory };

    fn from(_e: AllocError) -> ConsFault {
        ConsFault::Memory
    }
}

impl<T: Drop> From<AllocFailed<T>> for ConsFault {
    ghost from_gives = { λ _ e. e ≡ Memory };

    fn from(_e: AllocFailed<T>) -> ConsFault {
        ConsFault::Memory
    }
}
