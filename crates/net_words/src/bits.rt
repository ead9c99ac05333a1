//! Gates over single nodes.
ghost use Rattle.std.specs.Prelude.{◌≡◌, ◌<◌, ◌≤◌, length, IfOk};
ghost use Rattle.net_gates.specs.Gates.{MayAdd};
ghost use Rattle.net_words.specs.Builds.{Builds, put as spec_put};
ghost use Rattle.net_words.specs.Bits as spec;

use net_gates::{GateFault, GateList, Node};
use net_view::Gate;

/// An operation of two bits.
#[derive(Clone, Copy, Debug, PartialEq, Eq)]
pub enum Bitwise {
    /// `a & b`
    And,
    /// `a | b`
    Or,
    /// `a ^ b`
    Xor,
    /// `~(a ^ b)`
    Xnor,
}

/// One gate, and its node, which is new.
pub fn put(net: &mut GateList, gate: Gate<Node, u32>) -> Result<Node, GateFault>
    requires { MayAdd (length net.old) gate }
    ensures builds { Builds (λ n. n) (spec_put gate) net.old result net.new }
    ensures inside { IfOk result (λ n. n < length net.new) }
    ensures longer { length net.old ≤ length net.new }
{
    net.add(gate)
}

/// `~(a ^ b)`
pub(crate) fn xnor(net: &mut GateList, a: Node, b: Node) -> Result<Node, GateFault>
    requires a { a < length net.old }
    requires b { b < length net.old }
    ensures builds { Builds (λ n. n) (spec.xnor a b) net.old result net.new }
    ensures inside { IfOk result (λ n. n < length net.new) }
    ensures longer { length net.old ≤ length net.new }
{
    let differs = put(net, Gate::Xor(a, b))?;
    put(net, Gate::Not(differs))
}

/// An operation of two bits: a gate, and for `Xnor` an inverter behind it.
pub fn bit(net: &mut GateList, op: Bitwise, a: Node, b: Node) -> Result<Node, GateFault>
    requires a { a < length net.old }
    requires b { b < length net.old }
    ensures builds { Builds (λ n. n) (spec.bit op a b) net.old result net.new }
    ensures inside { IfOk result (λ n. n < length net.new) }
    ensures longer { length net.old ≤ length net.new }
{
    match op {
        Bitwise::And => put(net, Gate::And(a, b)),
        Bitwise::Or => put(net, Gate::Or(a, b)),
        Bitwise::Xor => put(net, Gate::Xor(a, b)),
        Bitwise::Xnor => xnor(net, a, b),
    }
}

/// The selection: `a` where `s` is 1, `b` where it is 0, as `(s & a) | (~s & b)`.
pub fn mux(net: &mut GateList, s: Node, a: Node, b: Node) -> Result<Node, GateFault>
    requires s { s < length net.old }
    requires a { a < length net.old }
    requires b { b < length net.old }
    ensures builds { Builds (λ n. n) (spec.mux s a b) net.old result net.new }
    ensures inside { IfOk result (λ n. n < length net.new) }
    ensures longer { length net.old ≤ length net.new }
{
    let first = put(net, Gate::And(s, a))?;
    let other = put(net, Gate::Not(s))?;
    let second = put(net, Gate::And(other, b))?;
    put(net, Gate::Or(first, second))
}
