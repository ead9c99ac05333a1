//! The first faulty line.

ghost use Rattle.std.specs.Prelude.{◌≡◌};
ghost use Rattle.cons_bind.specs.declared.fault.BindFault.TheVariants.{Memory};

use std::alloc::{AllocError, AllocFailed};

/// Why the lines are not bound. A number is that of the first line that has a fault.
#[derive(Clone, Copy, Debug, PartialEq, Eq)]
pub enum BindFault {
    /// Memory ran out.
    Memory,
    /// No bit has the name.
    NoName(u32),
    /// The name is a vector's, where a bit is wanted.
    NotOneBit(u32),
    /// The name is no input port.
    NotAnInput(u32),
    /// The name to track or to waive is no flop.
    NotAFlop(u32),
    /// A `reset` line names neither an input port nor a flop, or another line names no declared reset.
    NotAReset(u32),
    /// The name is no declared clock.
    NotAClock(u32),
    /// The port is declared a clock, and the data or the reset of a flop reads it.
    ClockRead(u32),
    /// A port has a second role, or a flop is a reset, tracked or waived again.
    Twice(u32),
    /// More than 16 flops are tracked.
    TrackLimit(u32),
}

impl From<AllocError> for BindFault {
    ghost from_gives = { λ _ e. e ≡ Memory };

    fn from(_e: AllocError) -> BindFault {
        BindFault::Memory
    }
}

impl<T: Drop> From<AllocFailed<T>> for BindFault {
    ghost from_gives = { λ _ e. e ≡ Memory };

    fn from(_e: AllocFailed<T>) -> BindFault {
        BindFault::Memory
    }
}
