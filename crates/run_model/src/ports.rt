//! What happens at the ports: a reset is struck or released, and the data inputs change.

ghost use Rattle.std.specs.Prelude.{◌≡◌, ◌≢◌, ℕ, ◌<◌, not, Bool, Option, None, List, length, All, map};
ghost use Rattle.rdc_tern.specs.declared.value.Tern.{Tern};
ghost use Rattle.net_view.specs.Values.{State, at, values};
ghost use Rattle.run_model.specs.State.{with_value};
ghost use Rattle.run_model.specs.declared.event.Event.TheVariants.{Strike, Release, Drive};
ghost use Rattle.run_model.specs.declared.answer.Stepped.TheVariants.{NotPossible};
ghost use Rattle.run_model.specs.Laws.{IsOrdered};
ghost use Rattle.run_model.specs.Up.{up_value, swept};
ghost use Rattle.run_model.specs.Event.{driven};
ghost use Rattle.run_model.specs.Netlist.{net_of, sources_of, level_of, machine_of};
ghost use Rattle.run_model.specs.Step.{Steps, DrivesInputs};

use crate::answer::Stepped;
use crate::pass::{evaluate, raise_all};
use crate::pins::level_value;
use net_view::FlopNet;
use rdc_tern::Tern;

/// The active level of a declared reset port.
pub(crate) fn level_at(resets: &[(u32, bool)], port: u32) -> Option<bool>
    ensures { result ≡ level_of resets.now port }
{
    for (reset, high) in resets {
        if *reset == port {
            return Some(*high);
        }
    }
    None
}

/// The old state with another value at one port, and what resets make of it.
fn put<V: FlopNet>(
    view: &V,
    order: &[V::Src],
    port: u32,
    value: Tern,
    old: &[Tern],
    new: &mut [Tern],
    buf: &mut [Tern],
)
    requires port_is_in { port < V.source_count view.now }
    requires order_is_in { All (λ s. V.source_number s < V.source_count view.now) order.now }
    requires ordered { IsOrdered (machine_of (net_of (V.gates view.now) (V.names view.now) (V.kinds view.now) (V.named_bits view.now)) (λ n. None) (λ n. None)
        (map V.source_number order.now)) }
    requires old_fits { length old.now ≡ V.source_count view.now }
    requires new_fits { length new.old ≡ V.source_count view.now }
    requires values_fit { length buf.old ≡ length (V.gates view.now) }
    ensures { let net = net_of (V.gates view.now) (V.names view.now) (V.kinds view.now) (V.named_bits view.now) in
        at new.new ≡ swept up_value (sources_of net) (map V.source_number order.now) (with_value (at old.now) port value) }
{
    new.copy_from_slice(old);
    new[port as usize] = value;
    evaluate(view, new, buf);
    raise_all(view, order, new, buf);
}

/// A strike.
pub(crate) fn strike<V: FlopNet>(
    view: &V,
    order: &[V::Src],
    resets: &[(u32, bool)],
    port: u32,
    old: &[Tern],
    new: &mut [Tern],
    buf: &mut [Tern],
) -> Stepped
    requires port_is_in { port < V.source_count view.now }
    requires order_is_in { All (λ s. V.source_number s < V.source_count view.now) order.now }
    requires ordered { IsOrdered (machine_of (net_of (V.gates view.now) (V.names view.now) (V.kinds view.now) (V.named_bits view.now)) (λ n. None) (λ n. None)
        (map V.source_number order.now)) }
    requires old_fits { length old.now ≡ V.source_count view.now }
    requires new_fits { length new.old ≡ V.source_count view.now }
    requires values_fit { length buf.old ≡ length (V.gates view.now) }
    ensures step { (fixed : ℕ → Option Bool) →
        let net = net_of (V.gates view.now) (V.names view.now) (V.kinds view.now) (V.named_bits view.now) in
        Steps (machine_of net (level_of resets.now) fixed (map V.source_number order.now)) (at old.now) (Strike port) result (at new.new) }
    ensures kept { result ≡ NotPossible → new.new ≡ new.old }
{
    let Some(high) = level_at(resets, port) else {
        return Stepped::NotPossible;
    };
    if old[port as usize] != level_value(!high) {
        return Stepped::NotPossible;
    }
    put(view, order, port, Tern::Unsettled, old, new, buf);
    Stepped::Done
}

/// A release.
pub(crate) fn release<V: FlopNet>(
    view: &V,
    order: &[V::Src],
    resets: &[(u32, bool)],
    port: u32,
    old: &[Tern],
    new: &mut [Tern],
    buf: &mut [Tern],
) -> Stepped
    requires port_is_in { port < V.source_count view.now }
    requires order_is_in { All (λ s. V.source_number s < V.source_count view.now) order.now }
    requires ordered { IsOrdered (machine_of (net_of (V.gates view.now) (V.names view.now) (V.kinds view.now) (V.named_bits view.now)) (λ n. None) (λ n. None)
        (map V.source_number order.now)) }
    requires old_fits { length old.now ≡ V.source_count view.now }
    requires new_fits { length new.old ≡ V.source_count view.now }
    requires values_fit { length buf.old ≡ length (V.gates view.now) }
    ensures step { (fixed : ℕ → Option Bool) →
        let net = net_of (V.gates view.now) (V.names view.now) (V.kinds view.now) (V.named_bits view.now) in
        Steps (machine_of net (level_of resets.now) fixed (map V.source_number order.now)) (at old.now) (Release port) result (at new.new) }
    ensures kept { result ≡ NotPossible → new.new ≡ new.old }
{
    let Some(high) = level_at(resets, port) else {
        return Stepped::NotPossible;
    };
    if old[port as usize] != level_value(high) {
        return Stepped::NotPossible;
    }
    put(view, order, port, level_value(!high), old, new, buf);
    Stepped::Done
}

/// Gives each source that a list names its level.
fn set_levels(levels: &[(u32, bool)], new: &mut [Tern])
    requires { All (λ x. x.0 < length new.old) levels.now }
    ensures { (n : ℕ) → at new.new n ≡ driven levels.now n (at new.old n) }
{
    for (source, level) in levels {
        new[*source as usize] = level_value(*level);
    }
}

/// A change of the data inputs.
pub(crate) fn drive<V: FlopNet>(
    view: &V,
    order: &[V::Src],
    levels: &[(u32, bool)],
    old: &[Tern],
    new: &mut [Tern],
    buf: &mut [Tern],
) -> Stepped
    requires levels_are_in { All (λ x. x.0 < V.source_count view.now) levels.now }
    requires order_is_in { All (λ s. V.source_number s < V.source_count view.now) order.now }
    requires ordered { IsOrdered (machine_of (net_of (V.gates view.now) (V.names view.now) (V.kinds view.now) (V.named_bits view.now)) (λ n. None) (λ n. None)
        (map V.source_number order.now)) }
    requires old_fits { length old.now ≡ V.source_count view.now }
    requires new_fits { length new.old ≡ V.source_count view.now }
    requires values_fit { length buf.old ≡ length (V.gates view.now) }
    ensures step { (declared fixed : ℕ → Option Bool) →
        let net = net_of (V.gates view.now) (V.names view.now) (V.kinds view.now) (V.named_bits view.now) in
        let m = machine_of net declared fixed (map V.source_number order.now) in
        DrivesInputs m (Drive levels.now) → Steps m (at old.now) (Drive levels.now) result (at new.new) }
    ensures comes { result ≢ NotPossible }
{
    new.copy_from_slice(old);
    set_levels(levels, new);
    evaluate(view, new, buf);
    raise_all(view, order, new, buf);
    Stepped::Done
}
