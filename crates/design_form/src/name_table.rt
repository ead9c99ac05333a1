//! Where names stand, without a scan.
ghost use Rattle.std.specs.Prelude.{◌≡◌, ◌<◌, ◌^◌, length, map, IfOk};
ghost use Rattle.std.specs.Option.{option_copied};
ghost use Rattle.design_form.specs.Numbers.{index_of};
ghost use Rattle.design_form.specs.Tables.{numbers_at};

use std::alloc::{AllocError, Global};
use std::collections::HashMap;

/// Where each name of a list stands; of equal names the first.
#[derive(Drop)]
pub(crate) struct NameTable {
    table: HashMap<Vec<u8>, u32>,
}

impl NameTable {
    pub(crate) fn new(alloc: Global, names: &[Vec<u8>]) -> Result<NameTable, AllocError>
        requires { length names.now < 2 ^ 32 }
        ensures { IfOk result (λ t. numbers_at t ≡ index_of (map (λ n. n.items) names.now)) }
    {
        let mut table = HashMap::new(alloc);
        let mut left = names.len();
        while 0 < left {
            left -= 1;
            let name = Vec::from_slice(alloc, names[left].as_slice())?;
            table.insert(name, left as u32)?;
        }
        Ok(NameTable { table })
    }

    pub(crate) fn get(&self, name: &[u8]) -> Option<u32>
        ensures { result ≡ numbers_at self.now name.now }
    {
        self.table.get(name).copied()
    }
}
