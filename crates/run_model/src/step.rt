//! One step of a net.

ghost use Rattle.std.specs.Prelude.{◌≡◌, ◌≢◌, ℕ, ◌<◌, Bool, Option, None, List, length, All, map};
ghost use Rattle.rdc_tern.specs.declared.value.Tern.{Tern};
ghost use Rattle.net_view.specs.Values.{at, values};
ghost use Rattle.run_model.specs.Laws.{IsOrdered};
ghost use Rattle.run_model.specs.Netlist.{net_of, level_of, machine_of};
ghost use Rattle.run_model.specs.Step.{IsWithin, DrivesInputs, Steps};

use crate::answer::Stepped;
use crate::calms::calm;
use crate::edges::edge;
use crate::event::Event;
use crate::ports::{drive, release, strike};
use net_view::FlopNet;
use rdc_tern::Tern;

/// The state after an event, by source number, and whether it disturbs a flop.
///
/// `order` is the pin order; `resets` has the declared reset ports with their active levels, true for high. `buf` has a
/// place for each node, and is left with anything. It takes two or three passes over the net, and one more for each
/// further flop in a chain where each one's change reaches the next one's pin.
pub fn step_into<V: FlopNet>(
    view: &V,
    order: &[V::Src],
    resets: &[(u32, bool)],
    e: &Event,
    old: &[Tern],
    new: &mut [Tern],
    buf: &mut [Tern],
) -> Stepped
    requires event_is_in { IsWithin (V.source_count view.now) e.now }
    requires order_is_in { All (λ s. V.source_number s < V.source_count view.now) order.now }
    requires ordered { IsOrdered (machine_of (net_of (V.gates view.now) (V.names view.now) (V.kinds view.now) (V.named_bits view.now)) (level_of resets.now) (λ n. None)
        (map V.source_number order.now)) }
    requires old_fits { length old.now ≡ V.source_count view.now }
    requires new_fits { length new.old ≡ V.source_count view.now }
    requires values_fit { length buf.old ≡ length (V.gates view.now) }

    // Whatever ports are clocks or tied: the net's machine steps so, if a Drive names data inputs alone.
    ensures step { (fixed : ℕ → Option Bool) →
        let net = net_of (V.gates view.now) (V.names view.now) (V.kinds view.now) (V.named_bits view.now) in
        let m = machine_of net (level_of resets.now) fixed (map V.source_number order.now) in
        DrivesInputs m e.now → Steps m (at old.now) e.now result (at new.new) }

    ensures kept { result ≡ Stepped.NotPossible → new.new ≡ new.old }
{
    match e {
        Event::Rise(clock) => edge(view, order, *clock, true, old, new, buf),
        Event::Fall(clock) => edge(view, order, *clock, false, old, new, buf),
        Event::Strike(port) => strike(view, order, resets, *port, old, new, buf),
        Event::Calm(number) => calm(view, order, resets, *number, old, new, buf),
        Event::Release(port) => release(view, order, resets, *port, old, new, buf),
        Event::Drive(levels) => drive(view, order, levels.as_slice(), old, new, buf),
    }
}
