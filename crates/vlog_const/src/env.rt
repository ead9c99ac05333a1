//! Names with values.
ghost use Rattle.std.specs.Prelude.{◌≡◌, OnOk};
ghost use Rattle.std.specs.Option.{option_copied};
ghost use Rattle.vlog_const.specs.Names.{no_values, with_value, values_of};

use crate::answer::ConstValue;
use std::alloc::{AllocError, Global};
use std::collections::HashMap;

/// What names stand for: parameters, and variables of loops. A look-up takes no scan.
#[derive(Drop)]
pub struct Env {
    table: HashMap<Vec<u8>, ConstValue>,
}

impl Env {
    /// No name has a value. The table keeps the allocator.
    pub fn new(alloc: Global) -> Env
        ensures { values_of result ≡ no_values }
    {
        Env {
            table: HashMap::new(alloc),
        }
    }

    /// Gives a name a value, in the place of the one that it had.
    pub fn set(&mut self, name: Vec<u8>, value: ConstValue) -> Result<(), AllocError>
        ensures { OnOk result (values_of self.new ≡ with_value (values_of self.old) name.items value) }
    {
        self.table.insert(name, value)?;
        Ok(())
    }

    /// What a name stands for.
    pub fn get(&self, name: &[u8]) -> Option<&ConstValue>
        ensures { option_copied result ≡ values_of self.now name.now }
    {
        self.table.get(name)
    }
}
