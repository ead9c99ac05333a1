//! Words of nodes in a context.
ghost use Rattle.std.specs.Prelude.{◌≡◌, ◌∷◌, [], ◌<◌, ◌≤◌, ◌*◌, length, IfOk, IfErr};
ghost use Rattle.design_form.specs.Extents.{shape_of};
ghost use Rattle.net_words.specs.Builds.{Builds, AreThere};
ghost use Rattle.net_gates.specs.declared.fault.GateFault.TheVariants.{Memory};
ghost use Rattle.net_exprs.specs.Extensions as spec;

use design_form::Extent;
use net_gates::{GateFault, GateList, Node};
use net_view::Gate;
use net_words::put;
use std::alloc::Global;

/// What stands above a word: the top bit of a signed one, else 0.
#[tactic(auto, unfolding(crate::specs::Extensions::fill))]
fn fill(net: &mut GateList, signed: bool, word: &[Node]) -> Result<Node, GateFault>
    requires { AreThere net.old word.now }
    ensures builds { Builds (λ n. n) (spec.fill signed word.now) net.old result net.new }
    ensures inside { IfOk result (λ n. n < length net.new) }
    ensures longer { length net.old ≤ length net.new }
{
    if signed && !word.is_empty() {
        return Ok(word[word.len() - 1]);
    }
    put(net, Gate::Const(false))
}

/// A word in a context: cut, or filled.
pub(crate) fn extended(
    net: &mut GateList,
    word: Vec<Node>,
    context: Extent,
) -> Result<Vec<Node>, GateFault>
    requires { AreThere net.old word.items }
    ensures builds { Builds (λ w. w.items) (spec.extended (shape_of context) word.items) net.old result net.new }
    ensures width { IfOk result (λ w. length w.items ≡ context.width) }
    ensures inside { IfOk result (λ w. AreThere net.new w.items) }
    ensures longer { length net.old ≤ length net.new }
{
    let mut extended = word;
    if context.width <= extended.len() {
        extended.truncate(context.width);
        return Ok(extended);
    }
    let fill = fill(net, context.signed, extended.as_slice())?;
    extended.resize(context.width, fill)?;
    Ok(extended)
}

/// One bit in a context.
pub(crate) fn one_bit(
    alloc: Global,
    net: &mut GateList,
    bit: Node,
    context: Extent,
) -> Result<Vec<Node>, GateFault>
    requires { bit < length net.old }
    ensures builds { Builds (λ w. w.items) (spec.extended (shape_of context) (bit ∷ [])) net.old result net.new }
    ensures width { IfOk result (λ w. length w.items ≡ context.width) }
    ensures inside { IfOk result (λ w. AreThere net.new w.items) }
    ensures longer { length net.old ≤ length net.new }
{
    let mut word = Vec::new(alloc);
    word.push(bit)?;
    extended(net, word, context)
}

/// Copies of a word, side by side.
pub(crate) fn copies(alloc: Global, count: u128, word: &[Node]) -> Result<Vec<Node>, GateFault>
    ensures items { IfOk result (λ w. w.items ≡ spec.copies count word.now) }
    ensures fault { IfErr result (λ fault. fault ≡ Memory) }
{
    let mut all = Vec::new(alloc);
    if word.is_empty() {
        return Ok(all);
    }
    for done in 0..count {
        all.extend_from_slice(word)?;
    }
    Ok(all)
}
