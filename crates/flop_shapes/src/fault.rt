//! Why a process is of no form.

use rdc_outside::Place;
use std::alloc::AllocError;

/// Why a process is of no form. Each place is that of the process.
#[derive(Clone, Copy, Debug, PartialEq, Eq)]
pub enum ShapeFault {
    /// There is no memory for the value of an index.
    Memory,
    /// Events with and without edges are mixed.
    ClockShape(Place),
    /// Three or more edges, or two with another body than `if (test) .. else ..`, or with another test than one of the
    /// reset.
    ResetShape(Place),
}

impl From<AllocError> for ShapeFault {
    ghost use Rattle.std.specs.Prelude.{◌≡◌};
    ghost use Rattle.flop_shapes.specs.declared.fault.ShapeFault.TheVariants.{Memory};

    ghost from_gives = { λ _ fault. fault ≡ Memory };

    fn from(_: AllocError) -> Self {
        ShapeFault::Memory
    }
}
