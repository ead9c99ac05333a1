//! Parts that are constants.
ghost use Rattle.std.specs.Prelude.{◌≡◌, IfOk};
ghost use Rattle.vlog_const.specs.Names.{no_values};
ghost use Rattle.vlog_const.specs.Constants.{value_in};
ghost use Rattle.vlog_const.specs.Operations.{is_division, is_power};
ghost use Rattle.design_form.specs.Extents.{shape_of};
ghost use Rattle.design_form.specs.Values.{constant_bits, count_alone, is_computed, number_alone};

use crate::extent::Extent;
use crate::fault::EvalFault;
use crate::words::bits;
use rdc_tern::Tern;
use std::alloc::Global;
use vlog_const::{ConstFault, Env, Shape, Whole, is_division, is_power, value, value_in};
use vlog_tree::{Binary, Expr};

/// What an expression is as a number, or 0 where it is no constant.
#[tactic(auto, unfolding(crate::specs::Values::number_of))]
pub(crate) fn number(alloc: Global, e: &Expr) -> Result<Whole, EvalFault>
    ensures { IfOk result (λ n. n ≡ number_alone e.now) }
{
    match value(alloc, e, &Env::new(alloc)) {
        Ok(value) => Ok(Whole::of(value)),
        Err(ConstFault::Memory) => Err(EvalFault::Memory),
        Err(_) => Ok(Whole {
            negative: false,
            magnitude: 0,
        }),
    }
}

/// What an expression is as a count, or 0 where it is no constant.
pub(crate) fn count(alloc: Global, e: &Expr) -> Result<u128, EvalFault>
    ensures { IfOk result (λ n. n ≡ count_alone e.now) }
{
    Ok(number(alloc, e)?.count())
}

/// `/`, `%` and `**` are computed of constants alone.
#[tactic(auto, unfolding(crate::specs::Values::is_computed))]
pub(crate) fn is_computed(op: Binary) -> bool
    ensures { result ≡ is_computed op }
{
    is_division(op) || is_power(op)
}

/// The bits of a constant in a context, or 0 where an expression is none.
#[tactic(auto, unfolding(crate::specs::Values::constant_bits))]
pub(crate) fn word(alloc: Global, e: &Expr, context: Extent) -> Result<Vec<Tern>, EvalFault>
    ensures { IfOk result (λ w. w.items ≡ constant_bits context.width (value_in no_values (shape_of context) e.now)) }
{
    if 128 < context.width {
        return bits(alloc, context.width, 0);
    }
    let shape = Shape {
        width: context.width as u32,
        signed: context.signed,
    };
    match value_in(alloc, e, &Env::new(alloc), shape) {
        Ok(value) => bits(alloc, context.width, value.bits),
        Err(ConstFault::Memory) => Err(EvalFault::Memory),
        Err(_) => bits(alloc, context.width, 0),
    }
}
