//! Why gates have no order.

use std::alloc::{AllocError, AllocFailed};

/// Why gates have no order.
#[derive(Drop)]
pub enum OrderFault {
    /// Memory ran out.
    Memory,
    /// Gates that some bit needs: each reads the next, and the last reads the first.
    Loop(Vec<u32>),
}

impl From<AllocError> for OrderFault {
    ghost use Rattle.std.specs.Prelude.{◌≡◌};
    ghost use Rattle.net_order.specs.declared.fault.OrderFault.TheVariants.{Memory};

    ghost from_gives = { λ _ fault. fault ≡ Memory };

    fn from(_: AllocError) -> Self {
        OrderFault::Memory
    }
}

impl<T: Drop> From<AllocFailed<T>> for OrderFault {
    ghost use Rattle.std.specs.Prelude.{◌≡◌};
    ghost use Rattle.net_order.specs.declared.fault.OrderFault.TheVariants.{Memory};

    ghost from_gives = { λ _ fault. fault ≡ Memory };

    fn from(_: AllocFailed<T>) -> Self {
        OrderFault::Memory
    }
}
