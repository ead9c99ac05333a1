//! Where names stand, without a scan.
ghost use Rattle.std.specs.Prelude.{◌≡◌};
ghost use Rattle.std.specs.Prelude.{IfOk};
ghost use Rattle.std.specs.Option.{is_some};
ghost use Rattle.design_form.specs.Numbers.{index_of};
ghost use Rattle.thin_tree.specs.Places.{places_at};
ghost use Rattle.thin_tree.specs.Written.{texts};

use std::alloc::{AllocError, Global};
use std::collections::HashMap;

/// Where each name of a list stands; of equal names the first.
#[derive(Drop)]
pub(crate) struct Places {
    table: HashMap<Vec<u8>, usize>,
}

impl Places {
    pub(crate) fn new(alloc: Global, names: &[&[u8]]) -> Result<Places, AllocError>
        ensures { IfOk result (λ t. places_at t ≡ index_of (texts names.now)) }
    {
        let mut table = HashMap::new(alloc);
        let mut left = names.len();
        while 0 < left {
            left -= 1;
            let name = Vec::from_slice(alloc, names[left])?;
            table.insert(name, left)?;
        }
        Ok(Places { table })
    }

    /// Where the name stands.
    pub(crate) fn get(&self, name: &[u8]) -> Option<usize>
        ensures { result ≡ places_at self.now name.now }
    {
        self.table.get(name).copied()
    }

    /// Whether the name is one of these.
    pub(crate) fn has(&self, name: &[u8]) -> bool
        ensures { result ≡ is_some (places_at self.now name.now) }
    {
        self.get(name).is_some()
    }
}
