//! Constants in targets and labels. Want of memory is the one fault that they can have.
ghost use Rattle.std.specs.Prelude.{◌≡◌, ◌<◌, ◌^◌, IfOk, IfErr};
ghost use Rattle.design_form.specs.Extents.{shape_of};
ghost use Rattle.design_form.specs.Selects.{part_width};
ghost use Rattle.design_form.specs.Values.{count_alone, number_alone};
ghost use Rattle.design_sizes.specs.Sizes as sizes;
ghost use Rattle.elab_bits.specs.Selects.{constant};
ghost use Rattle.net_gates.specs.declared.fault.GateFault.TheVariants.{Memory};
ghost use Rattle.proc_cases.specs.Full.{is_full, labels_of};
ghost use Rattle.proc_values.specs.Labels.{free_in};

use design_form::{Bounds, Design, Extent};
use net_gates::GateFault;
use sqlite_items::Boxed;
use std::alloc::Global;
use vlog_const::Whole;
use vlog_tree::{Arm, Expr, Matching, Stmt};

/// An index as a number, where it is constant.
pub(crate) fn constant(alloc: Global, e: &Expr) -> Result<Option<Whole>, GateFault>
    ensures value { IfOk result (λ i. i ≡ constant e.now) }
    ensures fault { IfErr result (λ fault. fault ≡ Memory) }
{
    match proc_values::constant(alloc, e) {
        Ok(index) => Ok(index),
        Err(_) => Err(GateFault::Memory),
    }
}

/// What an expression is as a number, or 0 where it is no constant.
pub(crate) fn number(alloc: Global, e: &Expr) -> Result<Whole, GateFault>
    ensures value { IfOk result (λ n. n ≡ number_alone e.now) }
    ensures fault { IfErr result (λ fault. fault ≡ Memory) }
{
    match proc_values::number(alloc, e) {
        Ok(number) => Ok(number),
        Err(_) => Err(GateFault::Memory),
    }
}

/// What an expression is as a count, or 0 where it is no constant.
pub(crate) fn count(alloc: Global, e: &Expr) -> Result<usize, GateFault>
    ensures value { IfOk result (λ n. n ≡ count_alone e.now) }
    ensures bound { IfOk result (λ n. n < 2 ^ 63) }
    ensures fault { IfErr result (λ fault. fault ≡ Memory) }
{
    match proc_values::count(alloc, e) {
        Ok(count) => Ok(count),
        Err(_) => Err(GateFault::Memory),
    }
}

/// How many indices stand from `first` to `second` in the direction of the range.
pub(crate) fn part_width(range: Bounds, first: Whole, second: Whole) -> Result<usize, GateFault>
    ensures value { IfOk result (λ n. n ≡ part_width range first second) }
    ensures bound { IfOk result (λ n. n < 2 ^ 63) }
    ensures fault { IfErr result (λ fault. fault ≡ Memory) }
{
    match proc_values::part_width(range, first, second) {
        Ok(width) => Ok(width),
        Err(_) => Err(GateFault::Memory),
    }
}

/// How wide an expression is.
pub(crate) fn width_of(alloc: Global, design: &Design, e: &Expr) -> Result<usize, GateFault>
    ensures value { IfOk result (λ n. n ≡ (sizes.shape_of design.now e.now).width) }
    ensures bound { IfOk result (λ n. n < 2 ^ 64) }
    ensures fault { IfErr result (λ fault. fault ≡ Memory) }
{
    match proc_values::width_of(alloc, design, e) {
        Ok(width) => Ok(width),
        Err(_) => Err(GateFault::Memory),
    }
}

/// Positions of a label that don't count.
pub(crate) fn free_in(
    alloc: Global,
    design: &Design,
    how: Matching,
    e: &Expr,
) -> Result<Vec<bool>, GateFault>
    ensures value { IfOk result (λ free. free.items ≡ free_in design.now how e.now) }
    ensures fault { IfErr result (λ fault. fault ≡ Memory) }
{
    match proc_values::free_in(alloc, design, how, e) {
        Ok(free) => Ok(free),
        Err(_) => Err(GateFault::Memory),
    }
}

/// The size of a selector and all labels together.
pub(crate) fn case_size(
    alloc: Global,
    design: &Design,
    selector: &Expr,
    arms: &[Arm<Boxed<Stmt>>],
) -> Result<Extent, GateFault>
    ensures shape { IfOk result (λ x. shape_of x ≡ sizes.case_shape design.now selector.now (labels_of arms.now)) }
    ensures fault { IfErr result (λ fault. fault ≡ Memory) }
{
    match proc_values::case_size(alloc, design, selector, arms) {
        Ok(size) => Ok(size),
        Err(_) => Err(GateFault::Memory),
    }
}

/// Whether no path leads past the items of a `case`.
pub(crate) fn is_full(
    alloc: Global,
    design: &Design,
    how: Matching,
    selector: &Expr,
    arms: &[Arm<Boxed<Stmt>>],
) -> Result<bool, GateFault>
    ensures value { IfOk result (λ b. b ≡ is_full design.now how selector.now (labels_of arms.now)) }
    ensures fault { IfErr result (λ fault. fault ≡ Memory) }
{
    match proc_cases::is_full(alloc, design, how, selector, arms) {
        Ok(full) => Ok(full),
        Err(_) => Err(GateFault::Memory),
    }
}
