//! Why a line is not bound, without its number.

ghost use Rattle.std.specs.Prelude.{◌≡◌};
ghost use Rattle.cons_bind.specs.declared.cause.Cause.TheVariants.{Memory};
ghost use Rattle.cons_bind.specs.Causes.{fault_at};

use crate::fault::BindFault;
use std::alloc::{AllocError, AllocFailed};

/// Why a line is not bound.
#[derive(Clone, Copy, Debug, PartialEq, Eq)]
pub(crate) enum Cause {
    Memory,
    NoName,
    NotOneBit,
    NotAnInput,
    NotAFlop,
    NotAReset,
    NotAClock,
    ClockRead,
    Twice,
    TrackLimit,
}

impl Cause {
    /// The fault of a line.
    pub(crate) fn at(self, line: u32) -> BindFault
        ensures { result ≡ fault_at self line }
    {
        match self {
            Cause::Memory => BindFault::Memory,
            Cause::NoName => BindFault::NoName(line),
            Cause::NotOneBit => BindFault::NotOneBit(line),
            Cause::NotAnInput => BindFault::NotAnInput(line),
            Cause::NotAFlop => BindFault::NotAFlop(line),
            Cause::NotAReset => BindFault::NotAReset(line),
            Cause::NotAClock => BindFault::NotAClock(line),
            Cause::ClockRead => BindFault::ClockRead(line),
            Cause::Twice => BindFault::Twice(line),
            Cause::TrackLimit => BindFault::TrackLimit(line),
        }
    }
}

impl From<AllocError> for Cause {
    ghost from_gives = { λ _ e. e ≡ Memory };

    fn from(_e: AllocError) -> Cause {
        Cause::Memory
    }
}

impl<T: Drop> From<AllocFailed<T>> for Cause {
    ghost from_gives = { λ _ e. e ≡ Memory };

    fn from(_e: AllocFailed<T>) -> Cause {
        Cause::Memory
    }
}
