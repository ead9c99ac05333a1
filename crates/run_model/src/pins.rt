//! What one flop of a net makes of the values of the nodes.

ghost use Rattle.std.specs.Prelude.{◌≡◌, ◌≢◌, ℕ, ◌<◌, ◌&&◌, List, length, IfSome, Some};
ghost use Rattle.std.specs.Option.{option_map};
ghost use Rattle.rdc_tern.specs.declared.value.Tern.{Tern};
ghost use Rattle.rdc_tern.specs.Kleene.{join_of};
ghost use Rattle.net_view.specs.Values.{State, at, values, settled};
ghost use Rattle.run_model.specs.Machine.{Phase, phase_at, phase_of};
ghost use Rattle.run_model.specs.Up.{lifted};
ghost use Rattle.run_model.specs.Event.{is_clock, is_edge, taken};
ghost use Rattle.run_model.specs.Netlist.{Netlist, renumbered_flop, flop_meaning};

use crate::phase::Phase;
use net_view::{FlopNet, FlopOf};
use rdc_tern::Tern;

/// A level as a value.
pub(crate) fn level_value(level: bool) -> Tern
    ensures { result ≡ settled level }
{
    if level { Tern::One } else { Tern::Zero }
}

/// What a pin of a level does at a value.
fn phase_of_value(high: bool, value: Tern) -> Phase
    ensures { result ≡ phase_at high value }
{
    match (high, value) {
        (_, Tern::Unsettled) => Phase::Unsure,
        (true, Tern::One) | (false, Tern::Zero) => Phase::Active,
        (true, Tern::Zero) | (false, Tern::One) => Phase::Inactive,
    }
}

/// The value of a node.
fn node_value<V: FlopNet>(view: &V, node: V::Node, buf: &[Tern]) -> Tern
    requires node_is_in { V.node_number node < length (V.gates view.now) }
    requires values_fit { length buf.now ≡ length (V.gates view.now) }
    ensures { result ≡ at buf.now (V.node_number node) }
{
    buf[view.index(node) as usize]
}

/// What the pin of a flop does, by the values of the nodes.
pub(crate) fn phase<V: FlopNet>(view: &V, flop: &FlopOf<V::Node>, buf: &[Tern]) -> Phase
    requires pin_is_in { IfSome flop.now.pin (λ p. V.node_number p < length (V.gates view.now)) }
    requires values_fit { length buf.now ≡ length (V.gates view.now) }
    ensures { (net : Netlist) (n : ℕ) (s : State) → net.gates ≡ V.gates view.now → buf.now ≡ values (V.gates view.now) s →
        result ≡ phase_of (flop_meaning net n (renumbered_flop V.node_number flop.now)) s }
{
    match flop.pin {
        None => Phase::Inactive,
        Some(pin) => phase_of_value(flop.high, node_value(view, pin, buf)),
    }
}

/// What a flop of this value takes at an edge that clocks it: its data, or its own value where it has none.
pub(crate) fn data_of<V: FlopNet>(
    view: &V,
    flop: &FlopOf<V::Node>,
    value: Tern,
    buf: &[Tern],
) -> Tern
    requires data_is_in { IfSome flop.now.next (λ p. V.node_number p < length (V.gates view.now)) }
    requires values_fit { length buf.now ≡ length (V.gates view.now) }
    ensures { (net : Netlist) (n : ℕ) (s : State) → net.gates ≡ V.gates view.now → buf.now ≡ values (V.gates view.now) s → value ≡ s n →
        result ≡ (flop_meaning net n (renumbered_flop V.node_number flop.now)).reads.value s }
{
    match flop.next {
        None => value,
        Some(next) => node_value(view, next, buf),
    }
}

/// Whether an edge of a clock clocks a flop.
pub(crate) fn is_loaded<N>(flop: &FlopOf<N>, clock: u32, rising: bool) -> bool
    ensures { result ≡ (is_clock flop.now.clock clock && is_edge flop.now.rising rising) }
{
    flop.clock == Some(clock) && flop.rising == rising
}

/// What a flop has after an edge that clocks it.
pub(crate) fn loaded(phase: Phase, old: Tern, next: Tern) -> Tern
    ensures { result ≡ taken phase old next }
{
    match phase {
        Phase::Inactive => next,
        Phase::Active => old,
        Phase::Unsure => old.join(next),
    }
}

/// What `up` makes of a flop's value.
pub(crate) fn raised(phase: Phase, value: Tern, reset: bool) -> Tern
    ensures { result ≡ lifted reset phase value }
{
    match phase {
        Phase::Inactive => value,
        Phase::Active | Phase::Unsure => value.join(level_value(reset)),
    }
}
