//! Why tokens are no modules.

ghost use Rattle.std.specs.Prelude.{◌≡◌};
ghost use Rattle.vlog_parse.specs.declared.fault.ParseFault.TheVariants.{Memory};

use rdc_outside::{Place, Seq};
use std::alloc::{AllocError, AllocFailed};

/// Why tokens are no list of modules. Each names a token, as which the end of the text counts.
#[derive(Debug, Drop)]
pub enum ParseFault {
    Memory,
    /// No list of modules begins so, and the token is one that this profile leaves out: its bytes, and its place.
    Unsupported(Seq<u8>, Place),
    /// No list of modules begins so.
    Syntax(Place),
    /// No list of modules less than 256 deep begins so.
    TooDeep(Place),
}

impl From<AllocError> for ParseFault {
    ghost from_gives = { λ _ fault. fault ≡ Memory };

    fn from(_: AllocError) -> ParseFault {
        ParseFault::Memory
    }
}

impl<T: Drop> From<AllocFailed<T>> for ParseFault {
    ghost from_gives = { λ _ fault. fault ≡ Memory };

    fn from(_: AllocFailed<T>) -> ParseFault {
        ParseFault::Memory
    }
}
