//! What a connection may be made to: a port, or a parameter.
ghost use Rattle.std.specs.Prelude.{◌≡◌};

use crate::pins::Pin;
use rdc_outside::Seq;

/// What a connection may be made to.
pub(crate) trait Socket {
    ghost use Rattle.std.specs.Prelude.{ℕ, Bool, List};

    /// Its name.
    ghost called: { Self → List ℕ };

    /// What tells an input port from an output.
    ghost flagged: { Self → Bool };

    /// Its name, lent.
    fn called(&self) -> &[u8]
        ensures { result.now ≡ called self.now };

    /// Whether it takes a value.
    fn flagged(&self) -> bool
        ensures { result ≡ flagged self.now };
}

impl Socket for Pin {
    ghost use Rattle.elab_binds.specs.Bindings.{pin_input, pin_name};

    ghost called = { pin_name };

    ghost flagged = { pin_input };

    fn called(&self) -> &[u8] {
        self.name.as_slice()
    }

    fn flagged(&self) -> bool {
        self.input
    }
}

impl Socket for Seq<u8> {
    ghost use Rattle.elab_binds.specs.Passed.{always, same};

    ghost called = { same };

    ghost flagged = { always };

    fn called(&self) -> &[u8] {
        self.as_slice()
    }

    fn flagged(&self) -> bool {
        true
    }
}
