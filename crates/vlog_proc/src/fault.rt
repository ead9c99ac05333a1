//! What is wrong with a process.
ghost use Rattle.std.specs.Prelude.{◌≡◌};
ghost use Rattle.vlog_proc.specs.Faults.{fault_of};

use proc_loops::LoopFault;
use rdc_outside::{Place, Seq};
use std::alloc::{AllocError, AllocFailed};
use vlog_const::ConstFault;

/// What is wrong with a process. A name is that of a signal, as it is printed, without an index.
#[derive(Debug, Drop)]
pub enum ProcFault {
    /// There is no memory for what is left to be looked at.
    Memory,
    /// A bit of this signal is not assigned on every path, at the process; or it is read before all of its bits are, at the
    /// read.
    Latch(Seq<u8>, Place),
    /// The list lacks a bit of this signal, which is read at the place.
    IncompleteList(Seq<u8>, Place),
    /// This signal must not be assigned so.
    WrongAssign(Seq<u8>, Place),
    /// The turns of all loops reach 65,536. The place is that of the process.
    LoopLimit(Place),
    /// A header has no value. No design that was elaborated has one.
    Const(ConstFault),
    /// A select of a running variable whose index is not constant. No design that was elaborated has one.
    NotBuilt(Place),
}

impl From<AllocError> for ProcFault {
    ghost use Rattle.std.specs.Prelude.{◌≡◌};
    ghost use Rattle.vlog_proc.specs.declared.fault.ProcFault.TheVariants.{Memory};

    ghost from_gives = { λ _ fault. fault ≡ Memory };

    fn from(_: AllocError) -> Self {
        ProcFault::Memory
    }
}

impl<T: Drop> From<AllocFailed<T>> for ProcFault {
    ghost use Rattle.std.specs.Prelude.{◌≡◌};
    ghost use Rattle.vlog_proc.specs.declared.fault.ProcFault.TheVariants.{Memory};

    ghost from_gives = { λ _ fault. fault ≡ Memory };

    fn from(_: AllocFailed<T>) -> Self {
        ProcFault::Memory
    }
}

/// Why a body has none without loops.
#[tactic(auto, unfolding(crate::specs::Faults::fault_of))]
pub(crate) fn fault_of(fault: LoopFault) -> ProcFault
    ensures { result ≡ fault_of fault }
{
    match fault {
        LoopFault::Memory => ProcFault::Memory,
        LoopFault::Const(cause) => ProcFault::Const(cause),
        LoopFault::NotBuilt(place) => ProcFault::NotBuilt(place),
    }
}
