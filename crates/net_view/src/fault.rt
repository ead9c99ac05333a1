//! Why a call gives no answer.

use rdc_outside::Seq;
use std::alloc::{AllocError, AllocFailed};

/// Why a cone or a slice isn't given.
#[derive(Clone, Copy, Debug, PartialEq, Eq)]
pub enum ConeFault {
    /// No memory for the nodes of the cone.
    Memory,
}

impl From<AllocError> for ConeFault {
    fn from(_: AllocError) -> Self {
        ConeFault::Memory
    }
}

impl<T: Drop> From<AllocFailed<T>> for ConeFault {
    fn from(_: AllocFailed<T>) -> Self {
        ConeFault::Memory
    }
}

/// Why there is no pin order.
#[derive(Drop)]
pub enum OrderFault {
    /// No memory for the order.
    Memory,
    /// The names of the flops of one cycle, from the least on, each followed by one that its pin reads.
    Loop(Seq<Seq<u8>>),
}

impl From<AllocError> for OrderFault {
    ghost use Rattle.std.specs.Prelude.{◌≡◌};
    ghost use Rattle.net_view.specs.declared.fault.OrderFault.TheVariants.{Memory};

    ghost from_gives = { λ _ fault. fault ≡ Memory };

    fn from(_: AllocError) -> Self {
        OrderFault::Memory
    }
}

impl<T: Drop> From<AllocFailed<T>> for OrderFault {
    ghost use Rattle.std.specs.Prelude.{◌≡◌};
    ghost use Rattle.net_view.specs.declared.fault.OrderFault.TheVariants.{Memory};

    ghost from_gives = { λ _ fault. fault ≡ Memory };

    fn from(_: AllocFailed<T>) -> Self {
        OrderFault::Memory
    }
}

impl From<ConeFault> for OrderFault {
    ghost use Rattle.std.specs.Prelude.{◌≡◌};
    ghost use Rattle.net_view.specs.declared.fault.OrderFault.TheVariants.{Memory};

    ghost from_gives = { λ _ fault. fault ≡ Memory };

    fn from(_: ConeFault) -> Self {
        OrderFault::Memory
    }
}
