//! Values that an instance gives to parameters.
ghost use Rattle.std.specs.Prelude.{◌≡◌, OnOk};
ghost use Rattle.std.specs.Option.{option_copied};
ghost use Rattle.elab_scopes.specs.Parameters.{none_given};
ghost use Rattle.elab_scopes.specs.Tables.{given_of, with_given};

use std::alloc::{AllocError, Global};
use std::collections::HashMap;
use vlog_tree::Expr;

/// Values that an instance gives to parameters, by name. Each is put in where the instance stands.
#[derive(Drop)]
pub struct Given {
    table: HashMap<Vec<u8>, Expr>,
}

impl Given {
    /// Nothing is given. The table keeps the allocator.
    pub fn none(alloc: Global) -> Given
        ensures { given_of result ≡ none_given }
    {
        Given {
            table: HashMap::new(alloc),
        }
    }

    /// Gives a parameter a value, in the place of the one that it had.
    pub fn give(&mut self, name: Vec<u8>, value: Expr) -> Result<(), AllocError>
        ensures { OnOk result (given_of self.new ≡ with_given (given_of self.old) name.items value) }
    {
        self.table.insert(name, value)?;
        Ok(())
    }

    /// What is given to a parameter.
    pub fn get(&self, name: &[u8]) -> Option<&Expr>
        ensures { option_copied result ≡ given_of self.now name.now }
    {
        self.table.get(name)
    }
}
