//! The names of one frame.
ghost use Rattle.std.specs.Prelude.{◌≡◌, OnOk, OnErr};
ghost use Rattle.std.specs.Option.{is_some, option_copied};
ghost use Rattle.elab_names.specs.Meanings.{names_of, no_names, with_name};

use crate::meaning::Meaning;
use std::alloc::{AllocError, Global};
use std::collections::HashMap;

/// The names that are declared in one place. A look-up takes no scan.
#[derive(Drop)]
pub(crate) struct Frame {
    table: HashMap<Vec<u8>, Meaning>,
}

impl Frame {
    /// No name is declared.
    pub(crate) fn new(alloc: Global) -> Frame
        ensures { names_of result ≡ no_names }
    {
        Frame {
            table: HashMap::new(alloc),
        }
    }

    /// Gives a name a meaning, in the place of the one that it had.
    pub(crate) fn set(&mut self, name: Vec<u8>, meaning: Meaning) -> Result<(), AllocError>
        ensures ok { OnOk result (names_of self.new ≡ with_name (names_of self.old) name.items meaning) }
        ensures err { OnErr result (names_of self.new ≡ names_of self.old) }
    {
        self.table.insert(name, meaning)?;
        Ok(())
    }

    /// What a name means.
    pub(crate) fn get(&self, name: &[u8]) -> Option<&Meaning>
        ensures { option_copied result ≡ names_of self.now name.now }
    {
        self.table.get(name)
    }

    /// Whether a name is declared.
    pub(crate) fn has(&self, name: &[u8]) -> bool
        ensures { result ≡ is_some (names_of self.now name.now) }
    {
        self.table.contains_key(name)
    }
}
