//! The machine of a net. It computes nothing.

ghost use Rattle.std.specs.Prelude.{ℕ, Bool, Option, List};
ghost use Rattle.run_model.specs.Laws.{IsOrdered, HasOwnPorts, IsMachine};
ghost use Rattle.run_model.specs.Netlist.{net_of, machine_of};

use net_view::FlopNet;

/// What is proved of machines holds of every net with flops, under a pin order and reset ports of its own.
pub fn net_is_machine<V: FlopNet>(view: &V)
    ensures { (declared fixed : ℕ → Option Bool) (order : List ℕ) →
        let m = machine_of (net_of (V.gates view.now) (V.names view.now) (V.kinds view.now) (V.named_bits view.now)) declared fixed order in
        IsOrdered m → HasOwnPorts m → IsMachine m }
{
    let _nodes = view.nodes();
    let _bits = view.bits();
}
