//! Constants in targets and labels.
ghost use Rattle.std.specs.Prelude.{◌≡◌, ◌<◌, ◌^◌, IfOk};
ghost use Rattle.elab_bits.specs.Selects.{constant};
ghost use Rattle.design_form.specs.Selects.{part_width};
ghost use Rattle.design_form.specs.Values.{count_alone, number_alone};

use design_form::{Bounds, EvalFault};
use std::alloc::Global;
use vlog_const::{ConstFault, Env, Whole, value};
use vlog_tree::Expr;

/// An index as a number, where it is constant.
#[tactic(auto, unfolding(elab_bits::specs::Selects::constant, elab_bits::specs::Selects::number_if))]
pub fn constant(alloc: Global, e: &Expr) -> Result<Option<Whole>, EvalFault>
    ensures { IfOk result (λ i. i ≡ constant e.now) }
{
    match value(alloc, e, &Env::new(alloc)) {
        Ok(value) => Ok(Some(Whole::of(value))),
        Err(ConstFault::Memory) => Err(EvalFault::Memory),
        Err(_) => Ok(None),
    }
}

/// What an expression is as a number, or 0 where it is no constant.
#[tactic(auto, unfolding(design_form::specs::Values::number_of))]
pub fn number(alloc: Global, e: &Expr) -> Result<Whole, EvalFault>
    ensures { IfOk result (λ n. n ≡ number_alone e.now) }
{
    match value(alloc, e, &Env::new(alloc)) {
        Ok(value) => Ok(Whole::of(value)),
        Err(ConstFault::Memory) => Err(EvalFault::Memory),
        Err(_) => Ok(Whole {
            negative: false,
            magnitude: 0,
        }),
    }
}

/// A width, where a word of that many bits fits memory.
fn possible(width: u128) -> Result<usize, EvalFault>
    ensures value { IfOk result (λ w. w ≡ width) }
    ensures bound { IfOk result (λ w. w < 2 ^ 63) }
{
    if width < 1 << 63 {
        return Ok(width as usize);
    }
    Err(EvalFault::Memory)
}

/// What an expression is as a count, or 0 where it is no constant.
pub fn count(alloc: Global, e: &Expr) -> Result<usize, EvalFault>
    ensures value { IfOk result (λ n. n ≡ count_alone e.now) }
    ensures bound { IfOk result (λ n. n < 2 ^ 63) }
{
    possible(number(alloc, e)?.count())
}

/// How many indices stand from `first` to `second` in the direction of the range.
#[tactic(auto, unfolding(design_form::specs::Selects::part_width))]
pub fn part_width(range: Bounds, first: Whole, second: Whole) -> Result<usize, EvalFault>
    ensures value { IfOk result (λ n. n ≡ part_width range first second) }
    ensures bound { IfOk result (λ n. n < 2 ^ 63) }
{
    let count = if range.is_down() {
        first.down_to(second)
    } else {
        second.down_to(first)
    };
    possible(count)
}
