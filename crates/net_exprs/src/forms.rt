//! Forms whose parts have no gates of their own.
ghost use Rattle.std.specs.Prelude.{◌≡◌, ◌<◌, ◌≤◌, false, length, IfOk};
ghost use Rattle.vlog_tree.specs.declared.expr.Part.TheVariants.{Fixed};
ghost use Rattle.design_form.specs.Bits.{bits};
ghost use Rattle.design_form.specs.Extents.{shape_of};
ghost use Rattle.net_words.specs.Builds.{Builds, AreThere};
ghost use Rattle.net_exprs.specs.Constants.{constants};
ghost use Rattle.net_exprs.specs.Lowered as spec;
ghost use Rattle.net_exprs.specs.Names.{wired_in, HasNodes};

use crate::constants::{constant, number};
use crate::extensions::extended;
use crate::selects::{part, part_width};
use crate::wired::wired;
use design_form::{Design, Extent};
use net_gates::{GateFault, GateList, Node};
use std::alloc::Global;
use vlog_tree::Expr;

/// A number.
pub(crate) fn number_word(
    alloc: Global,
    net: &mut GateList,
    width: usize,
    number: u128,
    context: Extent,
) -> Result<Vec<Node>, GateFault>
    ensures builds { Builds (λ w. w.items) ((spec.fixed (record { width = width; signed = false }) (constants (bits width number))).gates (shape_of context)) net.old result net.new }
    ensures width { IfOk result (λ w. length w.items ≡ context.width) }
    ensures inside { IfOk result (λ w. AreThere net.new w.items) }
    ensures longer { length net.old ≤ length net.new }
{
    let word = constant(alloc, net, width, number, false)?;
    extended(net, word, context)
}

/// A name.
pub(crate) fn named(
    alloc: Global,
    net: &mut GateList,
    design: &Design,
    nodes: &[Node],
    name: &[u8],
    context: Extent,
) -> Result<Vec<Node>, GateFault>
    requires has { HasNodes design.now nodes.now }
    requires nodes { AreThere net.old nodes.now }
    ensures builds { Builds (λ w. w.items) ((spec.named (wired_in design.now nodes.now name.now)).gates (shape_of context)) net.old result net.new }
    ensures width { IfOk result (λ w. length w.items ≡ context.width) }
    ensures inside { IfOk result (λ w. AreThere net.new w.items) }
    ensures longer { length net.old ≤ length net.new }
{
    let view = wired(alloc, design, nodes, name)?;
    extended(net, view.nodes, context)
}

/// A part between two constants.
pub(crate) fn fixed_part(
    alloc: Global,
    net: &mut GateList,
    design: &Design,
    nodes: &[Node],
    name: &[u8],
    first: &Expr,
    second: &Expr,
    context: Extent,
) -> Result<Vec<Node>, GateFault>
    requires has { HasNodes design.now nodes.now }
    requires nodes { AreThere net.old nodes.now }
    ensures builds { Builds (λ w. w.items) ((spec.select_formed (wired_in design.now nodes.now name.now) Fixed first.now (spec.lowered (wired_in design.now nodes.now) first.now) second.now).gates (shape_of context)) net.old result net.new }
    ensures width { IfOk result (λ w. length w.items ≡ context.width) }
    ensures inside { IfOk result (λ w. AreThere net.new w.items) }
    ensures longer { length net.old ≤ length net.new }
{
    let view = wired(alloc, design, nodes, name)?;
    let from = number(alloc, first)?;
    let to = number(alloc, second)?;
    let width = part_width(view.range, from, to)?;
    let bits = part(alloc, net, view.range, view.nodes.as_slice(), to, width)?;
    extended(net, bits, context)
}
