//! Names, each numbered by when it was put.
ghost use Rattle.std.specs.Prelude.{◌≡◌, ◌<◌, [], ◌∷◌, ◌++◌, length, slice_get, Some, Contains, OnOk, OnErr, IfErr};
ghost use Rattle.net_core.specs.declared.fault.NetFault.TheVariants.{Memory};

use crate::fault::NetFault;
use indexmap::IndexSet;
use std::alloc::Global;
use std::marker::Model;

/// Names that differ, in the order in which they were put.
#[derive(Drop)]
pub struct Names {
    set: IndexSet<String>,
}

impl Model for Names {
    ghost use Rattle.std.specs.Prelude.{ℕ, List, map, string_bytes};

    ghost Value = { List (List ℕ) };

    ghost view = { λ names. map string_bytes names.set.keys };
}

impl Names {
    pub(crate) fn new(alloc: Global) -> Names
        ensures { result ≡ [] }
    {
        Names {
            set: IndexSet::new(alloc),
        }
    }

    /// One more name.
    pub(crate) fn push(&mut self, name: &str) -> Result<(), NetFault>
        requires { Contains self.old name.now → ⊥ }
        ensures ok { OnOk result (self.new ≡ self.old ++ name.now ∷ []) }
        ensures err { OnErr result (self.new ≡ self.old) }
        ensures fault { IfErr result (λ fault. fault ≡ Memory) }
    {
        let name = String::from_str(*self.set.allocator(), name)?;
        self.set.insert(name)?;
        Ok(())
    }

    /// The name of a number.
    pub(crate) fn get(&self, n: u32) -> &str
        requires { n < length self.now }
        ensures { slice_get self.now n ≡ Some result.now }
    {
        let Some(name) = self.set.get_index(n as usize) else {
            unreachable!();
        };
        name.as_str()
    }

    pub(crate) fn len(&self) -> usize
        ensures { result ≡ length self.now }
    {
        self.set.len()
    }
}
