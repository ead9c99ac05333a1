//! Why a scope's declarations are refused.

use rdc_outside::{Place, Seq};
use std::alloc::{AllocError, AllocFailed};

/// Why a scope's declarations are refused. A name is as it is written, and its place that of the declaration named.
#[derive(Debug, Drop)]
pub enum DeclFault {
    /// There is no memory for a name.
    Memory,
    /// A direction for a name that the list of ports hasn't, or a name in that list without a direction.
    NoPort(Seq<u8>, Place),
    /// A declaration of a name that is declared already, and not as a port that may have it.
    TwiceDeclared(Seq<u8>, Place),
}

impl From<AllocError> for DeclFault {
    ghost use Rattle.std.specs.Prelude.{◌≡◌};
    ghost use Rattle.elab_decls.specs.declared.fault.DeclFault.TheVariants.{Memory};

    ghost from_gives = { λ _ fault. fault ≡ Memory };

    fn from(_: AllocError) -> Self {
        DeclFault::Memory
    }
}

impl<T: Drop> From<AllocFailed<T>> for DeclFault {
    ghost use Rattle.std.specs.Prelude.{◌≡◌};
    ghost use Rattle.elab_decls.specs.declared.fault.DeclFault.TheVariants.{Memory};

    ghost from_gives = { λ _ fault. fault ≡ Memory };

    fn from(_: AllocFailed<T>) -> Self {
        DeclFault::Memory
    }
}
