//! Why files have no expansion.
use rdc_outside::{Place, Seq};
use std::alloc::{AllocError, AllocFailed};

/// Why files have no expansion. A place is that of the backtick with which the cause begins.
#[derive(Debug, Drop)]
pub enum PreFault {
    Memory,
    /// There is no file of that name.
    Absent(Seq<u8>),
    /// The file of that name can't be read.
    Read(Seq<u8>),
    /// The file of that name is too long, or the text, a replacement or the count of uses and files gets too great in it.
    TooLong(Seq<u8>),
    /// The name is no directive's and no macro's.
    UnknownDirective(Place),
    /// The conditional has no begin, no further part, or no end in its file.
    Unbalanced(Place),
    /// A part of the directive or of the use is missing or wrong.
    BadMacroUse(Place),
    /// The macro is used within its own replacement.
    MacroLoop(Seq<u8>, Place),
    /// The file would be included too deep.
    TooDeep(Place),
}

/// Where an expansion stopped: the fault, and the names of the files that were loaded until then. The file of the fault's
/// place is a number in this list.
#[derive(Debug, Drop)]
pub struct Stopped {
    pub fault: PreFault,
    pub files: Seq<String>,
}

impl From<AllocError> for PreFault {
    ghost use Rattle.std.specs.Prelude.{◌≡◌};
    ghost use Rattle.vlog_pre.specs.declared.fault.PreFault.TheVariants.{Memory};

    ghost from_gives = { λ _ fault. fault ≡ Memory };

    fn from(_: AllocError) -> Self {
        PreFault::Memory
    }
}

impl<T: Drop> From<AllocFailed<T>> for PreFault {
    ghost use Rattle.std.specs.Prelude.{◌≡◌};
    ghost use Rattle.vlog_pre.specs.declared.fault.PreFault.TheVariants.{Memory};

    ghost from_gives = { λ _ fault. fault ≡ Memory };

    fn from(_: AllocFailed<T>) -> Self {
        PreFault::Memory
    }
}
