//! Named bits, each numbered by when it was put.
ghost use Rattle.std.specs.Prelude.{◌≡◌, ℕ, ◌<◌, ◌^◌, [], ◌∷◌, ◌++◌, length, slice_get, Some, OnOk, OnErr, IfErr};
ghost use Rattle.net_view.specs.FlopNet.{Bit, IsBitAt, FindsBit};
ghost use Rattle.net_core.specs.declared.fault.NetFault.TheVariants.{Memory};

use crate::fault::NetFault;
use indexmap::IndexMap;
use std::alloc::Global;
use std::marker::Model;

/// Where a bit is: its node, and the bit that it copies.
#[derive(Clone, Copy, Drop)]
pub struct Place {
    pub node: u32,
    pub root: u32,
}

/// Bits of different names, in the order in which they were put.
#[derive(Drop)]
pub struct BitTable {
    entries: IndexMap<String, Place>,
}

impl Model for BitTable {
    ghost use Rattle.std.specs.Prelude.{List, map};
    ghost use Rattle.net_view.specs.FlopNet.{Bit};
    ghost use Rattle.net_core.specs.Bits.{bit_of};

    ghost Value = { List Bit };

    ghost view = { λ table. map bit_of table.entries.entries };
}

impl BitTable {
    pub(crate) fn new(alloc: Global) -> BitTable
        ensures { result ≡ [] }
    {
        BitTable {
            entries: IndexMap::new(alloc),
        }
    }

    pub(crate) fn len(&self) -> usize
        ensures { result ≡ length self.now }
    {
        self.entries.len()
    }

    /// One more bit.
    pub(crate) fn push(&mut self, name: &str, place: Place) -> Result<(), NetFault>
        requires { (b : ℕ) (bit : Bit) → IsBitAt self.old b bit → bit.name ≡ name.now → ⊥ }
        ensures ok { OnOk result (self.new ≡ self.old ++ record { name = name.now; node = place.node; root = place.root } ∷ []) }
        ensures err { OnErr result (self.new ≡ self.old) }
        ensures fault { IfErr result (λ fault. fault ≡ Memory) }
    {
        let name = String::from_str(*self.entries.allocator(), name)?;
        self.entries.insert(name, place)?;
        Ok(())
    }

    /// The name of a bit.
    pub(crate) fn name(&self, b: u32) -> &str
        requires { b < length self.now }
        ensures { (bit : Bit) → IsBitAt self.now b bit → result.now ≡ bit.name }
    {
        let Some((name, _)) = self.entries.get_index(b as usize) else {
            unreachable!();
        };
        name.as_str()
    }

    /// Where a bit is.
    pub(crate) fn place(&self, b: u32) -> Place
        requires { b < length self.now }
        ensures node { (bit : Bit) → IsBitAt self.now b bit → result.node ≡ bit.node }
        ensures root { (bit : Bit) → IsBitAt self.now b bit → result.root ≡ bit.root }
    {
        let Some((_, place)) = self.entries.get_index(b as usize) else {
            unreachable!();
        };
        *place
    }

    /// The least bit of a name; None exactly where no bit has it.
    pub(crate) fn find(&self, name: &str) -> Option<u32>
        requires { length self.now < 2 ^ 32 }
        ensures { FindsBit self.now name.now result }
    {
        match self.entries.get_index_of(name) {
            Some(b) => Some(b as u32),
            None => None,
        }
    }
}
