//! Why a call gives no answer.

use net_view::ConeFault;
use rdc_outside::Seq;
use std::alloc::{AllocError, AllocFailed};

/// Why a net has no reset trees.
#[derive(Drop)]
pub enum TreeFault {
    /// Memory ran out.
    Memory,
    /// The names of the flops of one cycle, from the least on, each followed by one that its pin reads.
    ResetLoop(Seq<Seq<u8>>),
    /// The first flop by name whose clock is no input port.
    ClockNotPort(Seq<u8>),
    /// The first port by name that clocks a flop, and that data or a pin reads.
    ClockAsData(Seq<u8>),
}

impl From<AllocError> for TreeFault {
    ghost use Rattle.std.specs.Prelude.{◌≡◌};
    ghost use Rattle.reset_trees.specs.declared.fault.TreeFault.TheVariants.{Memory};

    ghost from_gives = { λ _ e. e ≡ Memory };

    fn from(_: AllocError) -> TreeFault {
        TreeFault::Memory
    }
}

impl<T: Drop> From<AllocFailed<T>> for TreeFault {
    ghost use Rattle.std.specs.Prelude.{◌≡◌};
    ghost use Rattle.reset_trees.specs.declared.fault.TreeFault.TheVariants.{Memory};

    ghost from_gives = { λ _ e. e ≡ Memory };

    fn from(_: AllocFailed<T>) -> TreeFault {
        TreeFault::Memory
    }
}

impl From<ConeFault> for TreeFault {
    ghost use Rattle.std.specs.Prelude.{◌≡◌};
    ghost use Rattle.reset_trees.specs.declared.fault.TreeFault.TheVariants.{Memory};

    ghost from_gives = { λ _ e. e ≡ Memory };

    fn from(_: ConeFault) -> TreeFault {
        TreeFault::Memory
    }
}
