//! The pass that resets make over the flops.

ghost use Rattle.std.specs.Prelude.{◌≡◌, ℕ, ◌<◌, not, ◌&&◌, List, length, All, map, None, IfSome, MatchOption};
ghost use Rattle.rdc_tern.specs.declared.value.Tern.{Tern};
ghost use Rattle.rdc_tern.specs.Kleene.{IsBelow};
ghost use Rattle.net_view.specs.Values.{State, at, values};
ghost use Rattle.run_model.specs.State.{with_value};
ghost use Rattle.run_model.specs.Machine.{APort, AFlop};
ghost use Rattle.run_model.specs.Laws.{IsOrdered};
ghost use Rattle.run_model.specs.Up.{up_value, swept};
ghost use Rattle.run_model.specs.Netlist.{Netlist, net_of, renumbered_flop, flop_meaning, sources_of, machine_of};
ghost use Rattle.run_model.specs.Passes.{is_unsettled, FallsIf};

use crate::netlist::net_is_machine;
use crate::pins::{phase, raised};
use net_view::{FlopNet, FlopOf, SrcKind, eval_into};
use rdc_tern::Tern;

/// Gives each node its value.
pub(crate) fn evaluate<V: FlopNet>(view: &V, sources: &[Tern], buf: &mut [Tern])
    requires sources_fit { length sources.now ≡ V.source_count view.now }
    requires nodes_fit { length buf.old ≡ length (V.gates view.now) }
    ensures { buf.new ≡ values (V.gates view.now) (at sources.now) }
{
    let _nodes = view.nodes();
    eval_into(view, sources, buf);
}

/// The flop that a source is.
pub(crate) fn flop_of<V: FlopNet>(view: &V, source: V::Src) -> Option<FlopOf<V::Node>>
    requires { V.source_number source < V.source_count view.now }
    ensures value { let net = net_of (V.gates view.now) (V.names view.now) (V.kinds view.now) (V.named_bits view.now) in
        MatchOption result (sources_of net (V.source_number source) ≡ APort)
        (λ f. sources_of net (V.source_number source) ≡ AFlop (flop_meaning net (V.source_number source) (renumbered_flop V.node_number f))) }
    ensures next { IfSome result (λ f. IfSome f.next (λ p. V.node_number p < length (V.gates view.now))) }
    ensures pin { IfSome result (λ f. IfSome f.pin (λ p. V.node_number p < length (V.gates view.now))) }
{
    let _bits = view.bits();
    match view.kind(source) {
        SrcKind::Flop(flop) => Some(flop),
        SrcKind::Port | SrcKind::BoxOut => None,
    }
}

/// What `up` makes of a source of this value.
fn up_of<V: FlopNet>(view: &V, source: V::Src, value: Tern, buf: &[Tern]) -> Tern
    requires source_is_in { V.source_number source < V.source_count view.now }
    requires values_fit { length buf.now ≡ length (V.gates view.now) }
    ensures value { let net = net_of (V.gates view.now) (V.names view.now) (V.kinds view.now) (V.named_bits view.now) in
        (s : State) → buf.now ≡ values (V.gates view.now) s → result ≡ up_value (sources_of net (V.source_number source)) s value }
    ensures raised { IsBelow value result }
{
    match flop_of(view, source) {
        Some(flop) => raised(phase(view, &flop, buf), value, flop.reset),
        None => value,
    }
}

/// The value of a source.
fn value_at(state: &[Tern], number: u32) -> Tern
    requires { number < length state.now }
    ensures { result ≡ at state.now number }
{
    state[number as usize]
}

/// Whether a value was settled, and is X now.
fn is_unsettling(before: Tern, now: Tern) -> bool
    ensures { result ≡ (not (is_unsettled before) && is_unsettled now) }
{
    match (before, now) {
        (Tern::Zero | Tern::One, Tern::Unsettled) => true,
        (Tern::Unsettled, _) | (_, Tern::Zero | Tern::One) => false,
    }
}

/// Raises one source by the values of the nodes, and answers whether that changed it.
fn raise_one<V: FlopNet>(view: &V, source: V::Src, new: &mut [Tern], buf: &[Tern]) -> bool
    requires source_is_in { V.source_number source < V.source_count view.now }
    requires sources_fit { length new.old ≡ V.source_count view.now }
    requires nodes_fit { length buf.now ≡ length (V.gates view.now) }
    ensures raised { let net = net_of (V.gates view.now) (V.names view.now) (V.kinds view.now) (V.named_bits view.now) in
        let n = V.source_number source in
        (s : State) → buf.now ≡ values (V.gates view.now) s → at new.new ≡ with_value (at new.old) n (up_value (sources_of net n) s (at new.old n)) }
    ensures falls { FallsIf result new.old new.new }
{
    let k = view.src_index(source);
    let before = value_at(new, k);
    let now = up_of(view, source, before, buf);
    new[k as usize] = now;
    is_unsettling(before, now)
}

/// Raises each source of the order by the values of the nodes, and answers whether that changed any.
fn raise_round<V: FlopNet>(view: &V, order: &[V::Src], new: &mut [Tern], buf: &[Tern]) -> bool
    requires order_is_in { All (λ s. V.source_number s < V.source_count view.now) order.now }
    requires sources_fit { length new.old ≡ V.source_count view.now }
    requires nodes_fit { length buf.now ≡ length (V.gates view.now) }
    ensures raised { let net = net_of (V.gates view.now) (V.names view.now) (V.kinds view.now) (V.named_bits view.now) in
        (s : State) → buf.now ≡ values (V.gates view.now) s →
        at new.new ≡ swept (λ x t v. up_value x s v) (sources_of net) (map V.source_number order.now) (at new.old) }
    ensures falls { FallsIf result new.old new.new }
{
    let mut changed = false;
    for source in order {
        let changes = raise_one(view, *source, new, buf);
        changed = changed || changes;
    }
    changed
}

/// Raises each source as its pin says, in rounds until one changes nothing. A pin behind a flop is a round later than it.
pub(crate) fn raise_all<V: FlopNet>(view: &V, order: &[V::Src], new: &mut [Tern], buf: &mut [Tern])
    requires order_is_in { All (λ s. V.source_number s < V.source_count view.now) order.now }
    requires ordered { IsOrdered (machine_of (net_of (V.gates view.now) (V.names view.now) (V.kinds view.now) (V.named_bits view.now)) (λ n. None) (λ n. None)
        (map V.source_number order.now)) }
    requires sources_fit { length new.old ≡ V.source_count view.now }
    requires nodes_fit { length buf.old ≡ length (V.gates view.now) }
    requires valued { buf.old ≡ values (V.gates view.now) (at new.old) }
    ensures raised { let net = net_of (V.gates view.now) (V.names view.now) (V.kinds view.now) (V.named_bits view.now) in
        at new.new ≡ swept up_value (sources_of net) (map V.source_number order.now) (at new.old) }
    ensures valued { buf.new ≡ values (V.gates view.now) (at new.new) }
{
    net_is_machine(view);
    'rounds: while raise_round(view, order, new, buf) {
        evaluate(view, new, buf);
    }
}
