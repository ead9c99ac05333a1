//! Constants in a net, and the parts of expressions that are constants.
ghost use Rattle.std.specs.Prelude.{◌≡◌, ◌<◌, ◌≤◌, length, IfOk, IfErr};
ghost use Rattle.vlog_const.specs.Names.{no_values};
ghost use Rattle.vlog_const.specs.Constants.{value_in};
ghost use Rattle.design_form.specs.Extents.{shape_of};
ghost use Rattle.design_form.specs.Values.{constant_bits, count_alone, is_computed, number_alone};
ghost use Rattle.net_gates.specs.declared.fault.GateFault.TheVariants.{Memory};
ghost use Rattle.net_words.specs.Builds.{Builds, AreThere};
ghost use Rattle.net_exprs.specs.Constants.{constants, is_one, lowest_bit, start_bits, IsValue};

use design_form::Extent;
use net_gates::{GateFault, GateList, Node};
use net_view::Gate;
use net_words::put;
use std::alloc::Global;
use vlog_const::{
    ConstFault, ConstValue, Env, Shape, Whole, is_division, is_power, value, value_in,
};
use vlog_tree::{Binary, Expr};

/// Whether the lowest bit of a number, or its inverse, is 1.
fn lowest(number: u128, inverse: bool) -> bool
    ensures { result ≡ is_one (lowest_bit inverse number) }
{
    (number % 2 == 1) != inverse
}

/// A node for each of the lowest bits of a number, or for the inverse of each.
pub(crate) fn constant(
    alloc: Global,
    net: &mut GateList,
    width: usize,
    number: u128,
    inverse: bool,
) -> Result<Vec<Node>, GateFault>
    ensures builds { Builds (λ w. w.items) (constants (start_bits inverse number width)) net.old result net.new }
    ensures width { IfOk result (λ w. length w.items ≡ width) }
    ensures inside { IfOk result (λ w. AreThere net.new w.items) }
    ensures longer { length net.old ≤ length net.new }
{
    let mut made = Vec::new(alloc);
    let mut rest = number;
    for place in 0..width {
        let bit = put(net, Gate::Const(lowest(rest, inverse)))?;
        made.push(bit)?;
        rest /= 2;
    }
    Ok(made)
}

/// What an expression is as a number, or 0 where it is no constant.
#[tactic(auto, unfolding(design_form::specs::Values::number_of))]
pub(crate) fn number(alloc: Global, e: &Expr) -> Result<Whole, GateFault>
    ensures value { IfOk result (λ n. n ≡ number_alone e.now) }
    ensures fault { IfErr result (λ fault. fault ≡ Memory) }
{
    match value(alloc, e, &Env::new(alloc)) {
        Ok(value) => Ok(Whole::of(value)),
        Err(ConstFault::Memory) => Err(GateFault::Memory),
        Err(_) => Ok(Whole {
            negative: false,
            magnitude: 0,
        }),
    }
}

/// What an expression is as a count, or 0 where it is no constant.
pub(crate) fn count(alloc: Global, e: &Expr) -> Result<u128, GateFault>
    ensures value { IfOk result (λ n. n ≡ count_alone e.now) }
    ensures fault { IfErr result (λ fault. fault ≡ Memory) }
{
    Ok(number(alloc, e)?.count())
}

/// `/`, `%` and `**` are computed of constants alone.
#[tactic(auto, unfolding(design_form::specs::Values::is_computed))]
pub(crate) fn is_computed(op: Binary) -> bool
    ensures { result ≡ is_computed op }
{
    is_division(op) || is_power(op)
}

/// The value of a constant in a context of at most 128 bits, if it has one.
pub(crate) fn known(
    alloc: Global,
    e: &Expr,
    context: Extent,
) -> Result<Option<ConstValue>, GateFault>
    ensures value { IfOk result (λ v. IsValue v (value_in no_values (shape_of context) e.now)) }
    ensures fault { IfErr result (λ fault. fault ≡ Memory) }
{
    if 128 < context.width {
        return Ok(None);
    }
    let shape = Shape {
        width: context.width as u32,
        signed: context.signed,
    };
    match value_in(alloc, e, &Env::new(alloc), shape) {
        Ok(value) => Ok(Some(value)),
        Err(ConstFault::Memory) => Err(GateFault::Memory),
        Err(_) => Ok(None),
    }
}

/// What `/`, `%` and `**` give: the value in a context, or 0 where there is none.
pub(crate) fn computed(
    alloc: Global,
    net: &mut GateList,
    e: &Expr,
    context: Extent,
) -> Result<Vec<Node>, GateFault>
    ensures builds { Builds (λ w. w.items) (constants (constant_bits context.width (value_in no_values (shape_of context) e.now))) net.old result net.new }
    ensures width { IfOk result (λ w. length w.items ≡ context.width) }
    ensures inside { IfOk result (λ w. AreThere net.new w.items) }
    ensures longer { length net.old ≤ length net.new }
{
    match known(alloc, e, context)? {
        Some(value) => constant(alloc, net, context.width, value.bits, false),
        None => constant(alloc, net, context.width, 0, false),
    }
}
