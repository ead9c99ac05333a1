//! A reset port or a flop settles.

ghost use Rattle.std.specs.Prelude.{◌≡◌, ◌≢◌, ℕ, ◌<◌, ◌↔◌, IsTrue, Bool, Option, None, List, length, All, map, IfSome, MatchOption};
ghost use Rattle.rdc_tern.specs.declared.value.Tern.{Tern};
ghost use Rattle.net_view.specs.Values.{State, at, values};
ghost use Rattle.run_model.specs.declared.event.Event.TheVariants.{Calm};
ghost use Rattle.run_model.specs.declared.answer.Stepped.TheVariants.{NotPossible};
ghost use Rattle.run_model.specs.Machine.{APort, AFlop};
ghost use Rattle.run_model.specs.Laws.{ListsFlops};
ghost use Rattle.run_model.specs.Event.{calm_value};
ghost use Rattle.run_model.specs.Permitted.{MaySettle};
ghost use Rattle.run_model.specs.Netlist.{net_of, renumbered_flop, flop_meaning, sources_of, level_of, machine_of};
ghost use Rattle.run_model.specs.Passes.{is_left, least_of};
ghost use Rattle.run_model.specs.Step.{Steps};

use crate::answer::{Stepped, answer_by};
use crate::edges::{better_of, is_exposed};
use crate::pass::{evaluate, flop_of};
use crate::phase::Phase;
use crate::pins::{level_value, phase};
use crate::ports::level_at;
use net_view::{FlopNet, FlopOf};
use rdc_tern::Tern;

/// Whether a source is X.
fn is_x_at(state: &[Tern], number: u32) -> bool
    requires { number < length state.now }
    ensures { IsTrue result ↔ at state.now number ≡ Tern.Unsettled }
{
    match state[number as usize] {
        Tern::Unsettled => true,
        Tern::Zero | Tern::One => false,
    }
}

/// Whether a source is a flop at X out of reset.
fn is_left_at<V: FlopNet>(view: &V, source: V::Src, value: Tern, buf: &[Tern]) -> bool
    requires source_is_in { V.source_number source < V.source_count view.now }
    requires values_fit { length buf.now ≡ length (V.gates view.now) }
    ensures { let net = net_of (V.gates view.now) (V.names view.now) (V.kinds view.now) (V.named_bits view.now) in
        (s : State) → buf.now ≡ values (V.gates view.now) s → result ≡ is_left (sources_of net (V.source_number source)) s value }
{
    match flop_of(view, source) {
        None => false,
        Some(flop) => is_exposed(phase(view, &flop, buf), value),
    }
}

/// The least flop at X out of reset.
fn least_left<V: FlopNet>(view: &V, order: &[V::Src], state: &[Tern], buf: &[Tern]) -> Option<u32>
    requires order_is_in { All (λ s. V.source_number s < V.source_count view.now) order.now }
    requires state_fits { length state.now ≡ V.source_count view.now }
    requires values_fit { length buf.now ≡ length (V.gates view.now) }
    requires valued { buf.now ≡ values (V.gates view.now) (at state.now) }
    ensures { let net = net_of (V.gates view.now) (V.names view.now) (V.kinds view.now) (V.named_bits view.now) in
        result ≡ least_of (λ n. is_left (sources_of net n) (at state.now) (at state.now n)) (map V.source_number order.now) None }
{
    let mut least = None;
    for source in order {
        let k = view.src_index(*source);
        let left = is_left_at(view, *source, state[k as usize], buf);
        least = better_of(least, left, k);
    }
    least
}

/// The flop that the source of a number is.
fn find_flop<V: FlopNet>(view: &V, order: &[V::Src], number: u32) -> Option<FlopOf<V::Node>>
    requires order_is_in { All (λ s. V.source_number s < V.source_count view.now) order.now }
    requires lists { ListsFlops (sources_of (net_of (V.gates view.now) (V.names view.now) (V.kinds view.now) (V.named_bits view.now)))
        (map V.source_number order.now) }
    ensures value { let net = net_of (V.gates view.now) (V.names view.now) (V.kinds view.now) (V.named_bits view.now) in
        MatchOption result (sources_of net number ≡ APort) (λ f. sources_of net number ≡ AFlop (flop_meaning net number (renumbered_flop V.node_number f))) }
    ensures pin { IfSome result (λ f. IfSome f.pin (λ p. V.node_number p < length (V.gates view.now))) }
{
    for source in order {
        if view.src_index(*source) == number {
            return flop_of(view, *source);
        }
    }
    None
}

/// What Calm gives a source; None where the source can't settle now.
fn settled_value<V: FlopNet>(
    view: &V,
    order: &[V::Src],
    resets: &[(u32, bool)],
    number: u32,
    buf: &[Tern],
) -> Option<Tern>
    requires order_is_in { All (λ s. V.source_number s < V.source_count view.now) order.now }
    requires lists { ListsFlops (sources_of (net_of (V.gates view.now) (V.names view.now) (V.kinds view.now) (V.named_bits view.now)))
        (map V.source_number order.now) }
    requires values_fit { length buf.now ≡ length (V.gates view.now) }
    ensures { let net = net_of (V.gates view.now) (V.names view.now) (V.kinds view.now) (V.named_bits view.now) in
        (s : State) → buf.now ≡ values (V.gates view.now) s →
        MatchOption result (MaySettle (sources_of net number) (level_of resets.now number) s → ⊥)
        (λ v. MaySettle (sources_of net number) (level_of resets.now number) s × (v ≡ calm_value (sources_of net number) (level_of resets.now number) (s number))) }
{
    match find_flop(view, order, number) {
        Some(flop) => match phase(view, &flop, buf) {
            Phase::Active => Some(level_value(flop.reset)),
            Phase::Inactive | Phase::Unsure => None,
        },
        None => match level_at(resets, number) {
            Some(high) => Some(level_value(high)),
            None => None,
        },
    }
}

/// A Calm.
pub(crate) fn calm<V: FlopNet>(
    view: &V,
    order: &[V::Src],
    resets: &[(u32, bool)],
    number: u32,
    old: &[Tern],
    new: &mut [Tern],
    buf: &mut [Tern],
) -> Stepped
    requires number_is_in { number < V.source_count view.now }
    requires order_is_in { All (λ s. V.source_number s < V.source_count view.now) order.now }
    requires lists { ListsFlops (sources_of (net_of (V.gates view.now) (V.names view.now) (V.kinds view.now) (V.named_bits view.now)))
        (map V.source_number order.now) }
    requires old_fits { length old.now ≡ V.source_count view.now }
    requires new_fits { length new.old ≡ V.source_count view.now }
    requires values_fit { length buf.old ≡ length (V.gates view.now) }
    ensures step { (fixed : ℕ → Option Bool) →
        let net = net_of (V.gates view.now) (V.names view.now) (V.kinds view.now) (V.named_bits view.now) in
        Steps (machine_of net (level_of resets.now) fixed (map V.source_number order.now)) (at old.now) (Calm number) result (at new.new) }
    ensures kept { result ≡ NotPossible → new.new ≡ new.old }
{
    if !is_x_at(old, number) {
        return Stepped::NotPossible;
    }
    evaluate(view, old, buf);
    let Some(value) = settled_value(view, order, resets, number, buf) else {
        return Stepped::NotPossible;
    };
    new.copy_from_slice(old);
    new[number as usize] = value;
    evaluate(view, new, buf);
    answer_by(least_left(view, order, new, buf))
}
