//! The edge of a clock.

ghost use Rattle.std.specs.Prelude.{◌≡◌, ◌≢◌, ℕ, ◌<◌, ◌&&◌, Bool, Option, None, List, length, All, map};
ghost use Rattle.rdc_tern.specs.declared.value.Tern.{Tern};
ghost use Rattle.net_view.specs.Values.{State, at, values};
ghost use Rattle.run_model.specs.declared.answer.Stepped.TheVariants.{NotPossible};
ghost use Rattle.run_model.specs.State.{with_value};
ghost use Rattle.run_model.specs.Machine.{Phase};
ghost use Rattle.run_model.specs.Laws.{IsOrdered};
ghost use Rattle.run_model.specs.Event.{edge_value};
ghost use Rattle.run_model.specs.Netlist.{net_of, sources_of, machine_of};
ghost use Rattle.run_model.specs.Passes.{written, is_unsettled, is_inactive, takes_unsettled, better, least_of, edge_of};
ghost use Rattle.run_model.specs.Step.{Steps};

use crate::answer::{Stepped, answer_by};
use crate::pass::{evaluate, flop_of, raise_all};
use crate::phase::Phase;
use crate::pins::{data_of, is_loaded, loaded, phase};
use net_view::FlopNet;
use rdc_tern::Tern;

/// The lesser of two numbers, of which the first may be absent and the second may not count.
pub(crate) fn better_of(best: Option<u32>, counts: bool, n: u32) -> Option<u32>
    ensures { result ≡ better best counts n }
{
    match (best, counts) {
        (best, false) => best,
        (None, true) => Some(n),
        (Some(k), true) => Some(if k < n { k } else { n }),
    }
}

/// Whether a flop out of reset is X.
pub(crate) fn is_exposed(phase: Phase, value: Tern) -> bool
    ensures { result ≡ (is_inactive phase && is_unsettled value) }
{
    match (phase, value) {
        (Phase::Inactive, Tern::Unsettled) => true,
        (Phase::Inactive, Tern::Zero | Tern::One) | (Phase::Active | Phase::Unsure, _) => false,
    }
}

/// What a source has after the edge.
fn edge_value_of<V: FlopNet>(
    view: &V,
    source: V::Src,
    clock: u32,
    rising: bool,
    value: Tern,
    buf: &[Tern],
) -> Tern
    requires source_is_in { V.source_number source < V.source_count view.now }
    requires values_fit { length buf.now ≡ length (V.gates view.now) }
    ensures { let net = net_of (V.gates view.now) (V.names view.now) (V.kinds view.now) (V.named_bits view.now) in
        (s : State) → buf.now ≡ values (V.gates view.now) s → value ≡ s (V.source_number source) →
        result ≡ edge_value (sources_of net (V.source_number source)) clock rising s value }
{
    match flop_of(view, source) {
        None => value,
        Some(flop) => {
            if is_loaded(&flop, clock, rising) {
                loaded(
                    phase(view, &flop, buf),
                    value,
                    data_of(view, &flop, value, buf),
                )
            } else {
                value
            }
        },
    }
}

/// Whether the edge lets a flop out of reset take X.
fn takes_unsettled_at<V: FlopNet>(
    view: &V,
    source: V::Src,
    clock: u32,
    rising: bool,
    value: Tern,
    buf: &[Tern],
) -> bool
    requires source_is_in { V.source_number source < V.source_count view.now }
    requires values_fit { length buf.now ≡ length (V.gates view.now) }
    ensures { let net = net_of (V.gates view.now) (V.names view.now) (V.kinds view.now) (V.named_bits view.now) in
        (s : State) → buf.now ≡ values (V.gates view.now) s → value ≡ s (V.source_number source) →
        result ≡ takes_unsettled (sources_of net (V.source_number source)) clock rising s }
{
    match flop_of(view, source) {
        None => false,
        Some(flop) => {
            is_loaded(&flop, clock, rising)
                && is_exposed(phase(view, &flop, buf), data_of(view, &flop, value, buf))
        },
    }
}

/// Gives one source its value after the edge.
fn clock_one<V: FlopNet>(
    view: &V,
    source: V::Src,
    clock: u32,
    rising: bool,
    old: &[Tern],
    new: &mut [Tern],
    buf: &[Tern],
)
    requires source_is_in { V.source_number source < V.source_count view.now }
    requires old_fits { length old.now ≡ V.source_count view.now }
    requires new_fits { length new.old ≡ V.source_count view.now }
    requires values_fit { length buf.now ≡ length (V.gates view.now) }
    requires valued { buf.now ≡ values (V.gates view.now) (at old.now) }
    ensures { let net = net_of (V.gates view.now) (V.names view.now) (V.kinds view.now) (V.named_bits view.now) in
        let n = V.source_number source in
        at new.new ≡ with_value (at new.old) n (edge_value (sources_of net n) clock rising (at old.now) (at old.now n)) }
{
    let k = view.src_index(source) as usize;
    new[k] = edge_value_of(view, source, clock, rising, old[k], buf);
}

/// Gives each source of the order its value after the edge.
fn clock_all<V: FlopNet>(
    view: &V,
    order: &[V::Src],
    clock: u32,
    rising: bool,
    old: &[Tern],
    new: &mut [Tern],
    buf: &[Tern],
)
    requires order_is_in { All (λ s. V.source_number s < V.source_count view.now) order.now }
    requires old_fits { length old.now ≡ V.source_count view.now }
    requires new_fits { length new.old ≡ V.source_count view.now }
    requires values_fit { length buf.now ≡ length (V.gates view.now) }
    requires valued { buf.now ≡ values (V.gates view.now) (at old.now) }
    ensures { let net = net_of (V.gates view.now) (V.names view.now) (V.kinds view.now) (V.named_bits view.now) in
        at new.new ≡ written (λ n. edge_value (sources_of net n) clock rising (at old.now) (at old.now n)) (map V.source_number order.now) (at new.old) }
{
    for source in order {
        clock_one(view, *source, clock, rising, old, new, buf);
    }
}

/// The least flop that the edge disturbs.
fn least_taking<V: FlopNet>(
    view: &V,
    order: &[V::Src],
    clock: u32,
    rising: bool,
    old: &[Tern],
    buf: &[Tern],
) -> Option<u32>
    requires order_is_in { All (λ s. V.source_number s < V.source_count view.now) order.now }
    requires old_fits { length old.now ≡ V.source_count view.now }
    requires values_fit { length buf.now ≡ length (V.gates view.now) }
    requires valued { buf.now ≡ values (V.gates view.now) (at old.now) }
    ensures { let net = net_of (V.gates view.now) (V.names view.now) (V.kinds view.now) (V.named_bits view.now) in
        result ≡ least_of (λ n. takes_unsettled (sources_of net n) clock rising (at old.now)) (map V.source_number order.now) None }
{
    let mut least = None;
    for source in order {
        let k = view.src_index(*source);
        let takes = takes_unsettled_at(view, *source, clock, rising, old[k as usize], buf);
        least = better_of(least, takes, k);
    }
    least
}

/// An edge: `Steps` of `Rise` or `Fall`.
pub(crate) fn edge<V: FlopNet>(
    view: &V,
    order: &[V::Src],
    clock: u32,
    rising: bool,
    old: &[Tern],
    new: &mut [Tern],
    buf: &mut [Tern],
) -> Stepped
    requires order_is_in { All (λ s. V.source_number s < V.source_count view.now) order.now }
    requires ordered { IsOrdered (machine_of (net_of (V.gates view.now) (V.names view.now) (V.kinds view.now) (V.named_bits view.now)) (λ n. None) (λ n. None)
        (map V.source_number order.now)) }
    requires old_fits { length old.now ≡ V.source_count view.now }
    requires new_fits { length new.old ≡ V.source_count view.now }
    requires values_fit { length buf.old ≡ length (V.gates view.now) }
    ensures step { (declared fixed : ℕ → Option Bool) →
        let net = net_of (V.gates view.now) (V.names view.now) (V.kinds view.now) (V.named_bits view.now) in
        Steps (machine_of net declared fixed (map V.source_number order.now)) (at old.now) (edge_of rising clock) result (at new.new) }
    ensures comes { result ≢ NotPossible }
{
    new.copy_from_slice(old);
    evaluate(view, old, buf);
    let least = least_taking(view, order, clock, rising, old, buf);
    clock_all(view, order, clock, rising, old, new, buf);
    evaluate(view, new, buf);
    raise_all(view, order, new, buf);
    answer_by(least)
}
