//! What a line wants of a name.

ghost use Rattle.std.specs.Prelude.{◌≡◌};
ghost use Rattle.cons_bind.specs.Wants.{misfit};

use crate::cause::Cause;

/// What a line wants of a name.
#[derive(Clone, Copy, Debug, PartialEq, Eq)]
pub(crate) enum Wanted {
    Input,
    Flop,
    /// What may be declared a reset: an input port or a flop.
    ResetSource,
    DeclaredReset,
    DeclaredClock,
}

/// The cause where a bit isn't what is wanted.
pub(crate) fn misfit_of(wanted: Wanted) -> Cause
    ensures { result ≡ misfit wanted }
{
    match wanted {
        Wanted::Input => Cause::NotAnInput,
        Wanted::Flop => Cause::NotAFlop,
        Wanted::ResetSource => Cause::NotAReset,
        Wanted::DeclaredReset => Cause::NotAReset,
        Wanted::DeclaredClock => Cause::NotAClock,
    }
}
