//! The values of a net's nodes.

ghost use Rattle.std.specs.Prelude.{◌≡◌, ℕ, ◌<◌, List, length};
ghost use Rattle.rdc_tern.specs.declared.value.Tern.{Tern};
ghost use Rattle.net_view.specs.View.{Numbered, Reads, renumbered, IsNet, IsGateAt};
ghost use Rattle.net_view.specs.Values.{State, at, IsValuation, IsRaised, gate_value, pick_of, lift_of, settled};

use crate::gate::Gate;
use crate::view::View;
use rdc_tern::Tern;

/// A bit, settled.
fn settled_bit(bit: bool) -> Tern
    ensures { result ≡ settled bit }
{
    if bit { Tern::One } else { Tern::Zero }
}

/// What `Gate::Pick` computes.
fn pick(pin: Tern, a: Tern, b: Tern) -> Tern
    ensures { result ≡ pick_of pin a b }
{
    match pin {
        Tern::One => a,
        Tern::Zero => b,
        Tern::Unsettled => a.join(b),
    }
}

/// What `Gate::Lift` computes.
fn lift(pin: Tern, value: Tern, reset: Tern) -> Tern
    ensures { result ≡ lift_of pin value reset }
{
    match pin {
        Tern::Zero => value,
        Tern::One | Tern::Unsettled => value.join(reset),
    }
}

/// The value that stands at a node's place.
fn value_at<V: View>(view: &V, node: V::Node, values: &[Tern]) -> Tern
    requires node_is_in { V.node_number node < length (V.gates view.now) }
    requires values_fit { length values.now ≡ length (V.gates view.now) }
    ensures { result ≡ at values.now (V.node_number node) }
{
    values[view.index(node) as usize]
}

/// The value of a source.
fn source_value<V: View>(view: &V, source: V::Src, sources: &[Tern]) -> Tern
    requires source_is_in { V.source_number source < V.source_count view.now }
    requires sources_fit { length sources.now ≡ V.source_count view.now }
    ensures { result ≡ at sources.now (V.source_number source) }
{
    sources[view.src_index(source) as usize]
}

/// The value of a gate whose fan-ins have theirs.
fn gate_of<V: View>(
    view: &V,
    gate: Gate<V::Node, V::Src>,
    sources: &[Tern],
    values: &[Tern],
) -> Tern
    requires reads { Reads (λ j. j < length (V.gates view.now)) (λ s. s < V.source_count view.now)
        (renumbered V.node_number V.source_number gate) }
    requires sources_fit { length sources.now ≡ V.source_count view.now }
    requires values_fit { length values.now ≡ length (V.gates view.now) }
    ensures { result ≡ gate_value (at sources.now) (at values.now) (renumbered V.node_number V.source_number gate) }
{
    match gate {
        Gate::Const(bit) => settled_bit(bit),
        Gate::Source(s) => source_value(view, s, sources),
        Gate::Not(a) => value_at(view, a, values).not(),
        Gate::And(a, b) => value_at(view, a, values).and(value_at(view, b, values)),
        Gate::Or(a, b) => value_at(view, a, values).or(value_at(view, b, values)),
        Gate::Xor(a, b) => value_at(view, a, values).xor(value_at(view, b, values)),
        Gate::Pick(c, a, b) => pick(
            value_at(view, c, values),
            value_at(view, a, values),
            value_at(view, b, values),
        ),
        Gate::Lift(c, a, reset) => lift(
            value_at(view, c, values),
            value_at(view, a, values),
            settled_bit(reset),
        ),
    }
}

/// Gives each node its value in a state of the sources: one value a source in `sources`, one a node in `buf`.
pub fn eval_into<V: View>(view: &V, sources: &[Tern], buf: &mut [Tern])
    requires sources_fit { length sources.now ≡ V.source_count view.now }
    requires nodes_fit { length buf.old ≡ length (V.gates view.now) }
    ensures value { IsValuation (V.gates view.now) (at sources.now) buf.new }

    // Raising sources raises nodes.
    ensures raised { (high : State) (values : List Tern) → IsRaised (at sources.now) high →
        IsValuation (V.gates view.now) high values → IsRaised (at buf.new) (at values) }
{
    'nodes: for n in 0..view.nodes() {
        let Some(node) = view.node(n) else {
            unreachable!();
        };
        buf[n as usize] = gate_of(view, view.gate(node), sources, buf);
    }
}
