//! The reset trees of a net, or why there are none.

ghost use Rattle.std.specs.Prelude.{◌≡◌, ℕ, ◌<◌, ◌^◌, length, map, MatchResult};
ghost use Rattle.net_view.specs.PinOrder.{IsPinOrder};
ghost use Rattle.cons_bind.specs.Names.{net_of};
ghost use Rattle.reset_trees.specs.declared.fault.TreeFault.TheVariants.{Memory};
ghost use Rattle.reset_trees.specs.Tables.{IsMarked, names_in, MarksFail};
ghost use Rattle.reset_trees.specs.Trees.{HasClocks, ReadsNoClock, NoLoop, AreTrees, ClockFails, TraceAnswers};

use crate::clocks::{clockless, read_clocks};
use crate::cone::numbers_of;
use crate::fault::TreeFault;
use crate::naming::{first_named, name_at};
use crate::pins::pin_cones;
use crate::tables::{kinds_of, names_of};
use crate::trees::Trees;
use cons_bind::read_sources;
use net_view::{FlopNet, OrderFault, SrcKind, pin_order};
use std::alloc::Global;

/// The first flop that is marked as without a clock, or else the first clock that is marked as read.
pub(crate) fn first_fault(
    alloc: Global,
    names: &[&str],
    without: &[bool],
    clocks: &[bool],
) -> Result<(), TreeFault>
    requires few { length names.now < 2 ^ 32 }
    requires flops { length without.now ≡ length names.now }
    requires ports { length clocks.now ≡ length names.now }
    ensures { MatchResult result (λ _. ((s : ℕ) → IsMarked without.now s → ⊥) × ((c : ℕ) → IsMarked clocks.now c → ⊥))
        (λ fault. MarksFail (names_in names.now) without.now clocks.now fault) }
{
    if let Some(flop) = first_named(names, without) {
        return Err(TreeFault::ClockNotPort(name_at(alloc, names, flop)?));
    }
    match first_named(names, clocks) {
        None => Ok(()),
        Some(port) => Err(TreeFault::ClockAsData(name_at(alloc, names, port)?)),
    }
}

/// Whether each flop has a port as its clock, and none of these ports is read; else the first that isn't so.
fn check_clocks<V: FlopNet>(
    alloc: Global,
    view: &V,
    kinds: &[SrcKind<u32>],
) -> Result<(), TreeFault>
    requires { kinds.now ≡ V.kinds view.now }
    ensures { let net = net_of (V.gates view.now) (V.names view.now) (V.kinds view.now) (V.named_bits view.now) in
        MatchResult result (λ _. HasClocks net × ReadsNoClock net) (λ fault. ClockFails net fault) }
{
    let _bits = view.bits();
    let _sources = view.sources();
    let names = names_of(alloc, view)?;
    let without = clockless(alloc, kinds)?;
    let read = read_sources(alloc, view)?;
    let clocks = read_clocks(alloc, kinds, &read)?;
    first_fault(alloc, &names, &without, &clocks)
}

/// The trees of a net whose flops have an order.
fn listed_trees<V: FlopNet>(
    alloc: Global,
    view: &V,
    kinds: &[SrcKind<u32>],
    order: &[V::Src],
) -> Result<Trees, TreeFault>
    requires kinds { kinds.now ≡ V.kinds view.now }
    requires order { IsPinOrder (V.gates view.now) (V.names view.now) (V.kinds view.now) (map V.source_number order.now) }
    ensures { let net = net_of (V.gates view.now) (V.names view.now) (V.kinds view.now) (V.named_bits view.now) in
        MatchResult result (λ trees. AreTrees net trees) (λ fault. fault ≡ Memory) }
{
    let _bits = view.bits();
    let order = numbers_of(alloc, view, order)?;
    match pin_cones(alloc, view, kinds) {
        Ok(pins) => Ok(Trees { order, pins }),
        Err(fault) => Err(fault),
    }
}

/// The trees of a net whose flops have an order, or what is wrong with its clocks.
fn trees_in_order<V: FlopNet>(alloc: Global, view: &V, order: &[V::Src]) -> Result<Trees, TreeFault>
    requires { IsPinOrder (V.gates view.now) (V.names view.now) (V.kinds view.now) (map V.source_number order.now) }
    ensures { let net = net_of (V.gates view.now) (V.names view.now) (V.kinds view.now) (V.named_bits view.now) in
        NoLoop net → TraceAnswers net result }
{
    let kinds = kinds_of(alloc, view)?;
    match check_clocks(alloc, view, &kinds) {
        Err(fault) => Err(fault),
        Ok(()) => listed_trees(alloc, view, &kinds, order),
    }
}

/// The pin order of a net and the cones of its pins.
///
/// It asks for each cone by itself, so it costs what the cones cost, beside a few passes over the nodes.
pub fn trace<V: FlopNet>(alloc: Global, view: &V) -> Result<Trees, TreeFault>
    ensures { TraceAnswers (net_of (V.gates view.now) (V.names view.now) (V.kinds view.now) (V.named_bits view.now)) result }
{
    match pin_order(alloc, view) {
        Ok(order) => trees_in_order(alloc, view, &order),
        Err(OrderFault::Loop(names)) => Err(TreeFault::ResetLoop(names)),
        Err(OrderFault::Memory) => Err(TreeFault::Memory),
    }
}
