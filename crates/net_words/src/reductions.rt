//! Over all bits of a word, from the first on.
ghost use Rattle.std.specs.Prelude.{◌≡◌, ◌<◌, ◌≤◌, length, IfOk};
ghost use Rattle.net_words.specs.Builds.{Builds, AreThere};
ghost use Rattle.net_words.specs.Words as spec;

use crate::bits::{Bitwise, bit, put};
use net_gates::{GateFault, GateList, Node};
use net_view::Gate;

/// The operation of what is found so far and of each further bit.
fn reduce_from(
    net: &mut GateList,
    op: Bitwise,
    found: Node,
    word: &[Node],
) -> Result<Node, GateFault>
    requires found { found < length net.old }
    requires word { AreThere net.old word.now }
    ensures builds { Builds (λ n. n) (spec.reduced_from op found word.now) net.old result net.new }
    ensures inside { IfOk result (λ n. n < length net.new) }
    ensures longer { length net.old ≤ length net.new }
{
    let mut found = found;
    for i in 0..word.len() {
        found = bit(net, op, found, word[i])?;
    }
    Ok(found)
}

/// The operation of all bits, of none a constant.
fn reduce(net: &mut GateList, op: Bitwise, none: bool, word: &[Node]) -> Result<Node, GateFault>
    requires { AreThere net.old word.now }
    ensures builds { Builds (λ n. n) (spec.reduced op none word.now) net.old result net.new }
    ensures inside { IfOk result (λ n. n < length net.new) }
    ensures longer { length net.old ≤ length net.new }
{
    match word {
        [] => put(net, Gate::Const(none)),
        [first, rest @ ..] => reduce_from(net, op, *first, rest),
    }
}

/// The OR of the bits, of none 0.
pub fn any(net: &mut GateList, word: &[Node]) -> Result<Node, GateFault>
    requires { AreThere net.old word.now }
    ensures builds { Builds (λ n. n) (spec.any word.now) net.old result net.new }
    ensures inside { IfOk result (λ n. n < length net.new) }
    ensures longer { length net.old ≤ length net.new }
{
    reduce(net, Bitwise::Or, false, word)
}

/// The AND of the bits, of none 1.
pub fn all(net: &mut GateList, word: &[Node]) -> Result<Node, GateFault>
    requires { AreThere net.old word.now }
    ensures builds { Builds (λ n. n) (spec.all word.now) net.old result net.new }
    ensures inside { IfOk result (λ n. n < length net.new) }
    ensures longer { length net.old ≤ length net.new }
{
    reduce(net, Bitwise::And, true, word)
}

/// The XOR of the bits, of none 0.
pub fn parity(net: &mut GateList, word: &[Node]) -> Result<Node, GateFault>
    requires { AreThere net.old word.now }
    ensures builds { Builds (λ n. n) (spec.parity word.now) net.old result net.new }
    ensures inside { IfOk result (λ n. n < length net.new) }
    ensures longer { length net.old ≤ length net.new }
{
    reduce(net, Bitwise::Xor, false, word)
}
