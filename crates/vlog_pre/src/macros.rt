//! The macros that are defined.
ghost use Rattle.std.specs.Prelude.{◌≡◌, None, Some, OnOk};
ghost use Rattle.std.specs.Option.{option_copied};
ghost use Rattle.vlog_pre.specs.Meanings.{no_meanings, with_meaning, meanings_of};

use rdc_outside::Seq;
use std::alloc::{AllocError, Global};
use std::collections::HashMap;

/// A macro: its parameters, and the text that stands for its uses.
#[derive(Debug, Drop)]
pub(crate) struct Macro {
    pub(crate) parameters: Seq<Seq<u8>>,
    pub(crate) text: Seq<u8>,
}

/// The macros by name.
#[derive(Drop)]
pub(crate) struct Macros {
    table: HashMap<Vec<u8>, Macro>,
}

impl Macros {
    pub(crate) fn new(alloc: Global) -> Macros
        ensures { meanings_of result ≡ no_meanings }
    {
        Macros {
            table: HashMap::new(alloc),
        }
    }

    /// The macro of a name.
    pub(crate) fn get(&self, name: &[u8]) -> Option<&Macro>
        ensures { option_copied result ≡ meanings_of self.now name.now }
    {
        self.table.get(name)
    }

    /// Gives a name a macro.
    pub(crate) fn set(&mut self, name: Vec<u8>, meaning: Macro) -> Result<(), AllocError>
        ensures { OnOk result (meanings_of self.new ≡ with_meaning (meanings_of self.old) name.items (Some meaning)) }
    {
        self.table.insert(name, meaning)?;
        Ok(())
    }

    /// Takes the macro of a name away.
    pub(crate) fn remove(&mut self, name: &[u8])
        ensures { meanings_of self.new ≡ with_meaning (meanings_of self.old) name.now None }
    {
        self.table.remove(name);
    }
}
