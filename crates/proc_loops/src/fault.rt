//! Why a body is not unrolled.

use rdc_outside::Place;
use std::alloc::{AllocError, AllocFailed};
use vlog_const::ConstFault;

/// Why a body is not unrolled. Each place is that of the first token of what is named.
#[derive(Clone, Copy, Debug, PartialEq, Eq)]
pub enum LoopFault {
    /// There is no memory for what is left to be built.
    Memory,
    /// A header has no value, or names something that is no running variable: `NotConstant`, where it stands.
    Const(ConstFault),
    /// A select of a running variable whose index is not constant.
    NotBuilt(Place),
}

impl From<AllocError> for LoopFault {
    ghost use Rattle.std.specs.Prelude.{◌≡◌};
    ghost use Rattle.proc_loops.specs.declared.fault.LoopFault.TheVariants.{Memory};

    ghost from_gives = { λ _ fault. fault ≡ Memory };

    fn from(_: AllocError) -> Self {
        LoopFault::Memory
    }
}

impl<T: Drop> From<AllocFailed<T>> for LoopFault {
    ghost use Rattle.std.specs.Prelude.{◌≡◌};
    ghost use Rattle.proc_loops.specs.declared.fault.LoopFault.TheVariants.{Memory};

    ghost from_gives = { λ _ fault. fault ≡ Memory };

    fn from(_: AllocFailed<T>) -> Self {
        LoopFault::Memory
    }
}
