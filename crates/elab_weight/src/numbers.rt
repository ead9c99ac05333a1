//! Constants in selects.
ghost use Rattle.std.specs.Prelude.{◌≡◌, IfOk};
ghost use Rattle.design_form.specs.Values.{number_alone};

use design_form::EvalFault;
use std::alloc::Global;
use vlog_const::{ConstFault, Env, Whole, value};
use vlog_tree::Expr;

/// What an expression is as a number, or 0 where it is no constant.
#[tactic(auto, unfolding(design_form::specs::Values::number_of))]
pub(crate) fn number(alloc: Global, e: &Expr) -> Result<Whole, EvalFault>
    ensures { IfOk result (λ n. n ≡ number_alone e.now) }
{
    match value(alloc, e, &Env::new(alloc)) {
        Ok(value) => Ok(Whole::of(value)),
        Err(ConstFault::Memory) => Err(EvalFault::Memory),
        Err(_) => Ok(Whole {
            negative: false,
            magnitude: 0,
        }),
    }
}
