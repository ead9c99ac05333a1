//! Copies of expressions.
ghost use Rattle.std.specs.Prelude.{◌≡◌, IfOk};

use crate::writing::written;
use std::alloc::{AllocError, Global};
use vlog_const::Env;
use vlog_tree::Expr;

/// The same expression.
///
/// # Errors
/// Want of memory.
#[tactic(auto, using(crate::proofs::PlainExpressions::written_none))]
pub fn copied(alloc: Global, e: &Expr) -> Result<Expr, AllocError>
    ensures { IfOk result (λ copy. copy ≡ e.now) }
{
    let env = Env::new(alloc);
    written(alloc, e, &env)
}
