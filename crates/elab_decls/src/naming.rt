//! What a declaration lists: names, or things with names.
ghost use Rattle.std.specs.Prelude.{◌≡◌};
ghost use Rattle.std.specs.Option.{option_copied};

use vlog_tree::{Binding, Gate, Ident, Instance, Net, Parameter};

/// What may have a name.
pub trait Naming {
    ghost use Rattle.std.specs.Prelude.{Option};
    ghost use Rattle.vlog_tree.specs.declared.ident.Ident.{Ident};

    /// Its name, if it has one.
    ghost ident: { Self → Option Ident };

    /// Its name, lent.
    fn ident(&self) -> Option<&Ident>
        ensures { option_copied result ≡ ident self.now };
}

impl Naming for Ident {
    ghost use Rattle.std.specs.Prelude.{Some};

    ghost ident = { λ i. Some i };

    fn ident(&self) -> Option<&Ident> {
        Some(self)
    }
}

impl Naming for Net {
    ghost use Rattle.std.specs.Prelude.{Some};

    ghost ident = { λ n. Some n.name };

    fn ident(&self) -> Option<&Ident> {
        Some(&self.name)
    }
}

impl Naming for Binding {
    ghost use Rattle.std.specs.Prelude.{Some};

    ghost ident = { λ b. Some b.name };

    fn ident(&self) -> Option<&Ident> {
        Some(&self.name)
    }
}

impl Naming for Gate {
    ghost ident = { λ g. g.name };

    fn ident(&self) -> Option<&Ident> {
        self.name.as_ref()
    }
}

impl Naming for Instance {
    ghost use Rattle.std.specs.Prelude.{Some};

    ghost ident = { λ i. Some i.name };

    fn ident(&self) -> Option<&Ident> {
        Some(&self.name)
    }
}

impl Naming for Parameter {
    ghost use Rattle.std.specs.Prelude.{Some};

    ghost ident = { λ p. Some p.binding.name };

    fn ident(&self) -> Option<&Ident> {
        Some(&self.binding.name)
    }
}
