//! The running variables of the loops around a statement.
ghost use Rattle.std.specs.Prelude.{◌≡◌};
ghost use Rattle.vlog_const.specs.Names.{no_values, values_of};
ghost use Rattle.proc_loops.specs.Scopes.{set_all};

use vlog_const::{ConstValue, Env};
use vlog_tree::Name;

/// A variable with its value.
#[derive(Drop)]
pub struct Known {
    pub name: Name,
    pub value: ConstValue,
}

/// The variables that have a value, as a table and in the order of their loops.
#[derive(Drop)]
pub struct Scope {
    pub env: Env,
    pub known: Vec<Known>,
    ghost same: { values_of env ≡ set_all no_values known.items },
}
