//! Expressions form by form: the walk.
ghost use Rattle.std.specs.Prelude.{◌≡◌, ◌<◌, ◌≤◌, ◌^◌, false, length, map, IfOk};
ghost use Rattle.vlog_tree.specs.declared.expr.Part.TheVariants.{Fixed};
ghost use Rattle.design_form.specs.Extents.{shape_of};
ghost use Rattle.design_form.specs.Values.{count_alone, is_computed};
ghost use Rattle.net_words.specs.Builds.{Builds, AreThere};
ghost use Rattle.net_exprs.specs.Lowered as spec;
ghost use Rattle.net_exprs.specs.Names.{wired_in, HasNodes};
ghost use Rattle.net_exprs.specs.Views.{view_of};

use crate::constants::{computed, constant, count, is_computed, known};
use crate::extensions::{copies, extended};
use crate::forms::{fixed_part, named, number_word};
use crate::operators::{between, prefixed};
use crate::picks::{Select, picked};
use crate::sizes::{both_signed, extent, possible, sides, within};
use crate::wired::{View, wired};
use design_form::{Design, Extent};
use net_gates::{GateFault, GateList, Node};
use net_words::{any, select};
use std::alloc::Global;
use vlog_tree::{Binary, Expr, Part, Unary};

/// The gates of an expression in a context, and its nodes, least significant bit first.
///
/// # Errors
/// `Full` where they don't fit the list, and `Memory`.
#[cycle(gates)]
pub fn lower(
    alloc: Global,
    net: &mut GateList,
    design: &Design,
    nodes: &[Node],
    e: &Expr,
    context: Extent,
) -> Result<Vec<Node>, GateFault>
    requires has { HasNodes design.now nodes.now }
    requires nodes { AreThere net.old nodes.now }
    ensures builds { Builds (λ w. w.items) (spec.built_in (wired_in design.now nodes.now) (shape_of context) e.now) net.old result net.new }
    ensures width { IfOk result (λ w. length w.items ≡ context.width) }
    ensures inside { IfOk result (λ w. AreThere net.new w.items) }
    ensures longer { length net.old ≤ length net.new }
{
    match known(alloc, e, context)? {
        Some(value) => constant(alloc, net, value.width as usize, value.bits, false),
        None => formed(alloc, net, design, nodes, e, context),
    }
}

/// An expression by its form.
#[cycle(gates)]
fn formed(
    alloc: Global,
    net: &mut GateList,
    design: &Design,
    nodes: &[Node],
    e: &Expr,
    context: Extent,
) -> Result<Vec<Node>, GateFault>
    requires has { HasNodes design.now nodes.now }
    requires nodes { AreThere net.old nodes.now }
    ensures builds { Builds (λ w. w.items) (spec.formed_in (wired_in design.now nodes.now) (shape_of context) e.now) net.old result net.new }
    ensures width { IfOk result (λ w. length w.items ≡ context.width) }
    ensures inside { IfOk result (λ w. AreThere net.new w.items) }
    ensures longer { length net.old ≤ length net.new }
{
    match e {
        Expr::Number(_, n) => {
            let n = n.get();
            number_word(alloc, net, n.width as usize, n.bits, context)
        }
        Expr::Name(_, name) => named(alloc, net, design, nodes, name.as_slice(), context),
        Expr::Index(_, name, at) => {
            let at = at.get();
            index(alloc, net, design, nodes, name.as_slice(), at, context)
        }
        Expr::Select(part, _, name, first, second) => {
            let (name, first, second) = (name.as_slice(), first.get(), second.get());
            match part {
                Part::Fixed => {
                    fixed_part(alloc, net, design, nodes, name, first, second, context)
                }
                Part::Up | Part::Down => part_from(
                    alloc, net, design, nodes, name, *part, first, second, context,
                ),
            }
        }
        Expr::Brackets(_, inner) => lower(alloc, net, design, nodes, inner.get(), context),
        Expr::Concat(_, members) => {
            let members = members.as_slice();
            concat(alloc, net, design, nodes, members, context)
        }
        Expr::Repeat(_, n, members) => {
            let (n, members) = (n.get(), members.as_slice());
            repeat(alloc, net, design, nodes, n, members, context)
        }
        Expr::Unary(_, op, inner) => { unary(alloc, net, design, nodes, *op, inner.get(), context) }
        Expr::Binary(_, op, left, right) => {
            if is_computed(*op) {
                return computed(alloc, net, e, context);
            }
            let (left, right) = (left.get(), right.get());
            binary(alloc, net, design, nodes, *op, left, right, context)
        }
        Expr::Conditional(_, test, left, right) => {
            let (test, left, right) = (test.get(), left.get(), right.get());
            choice(alloc, net, design, nodes, test, left, right, context)
        }
    }
}

/// The same of an expression that stands alone.
///
/// # Errors
/// As `lower`.
#[cycle(gates)]
pub fn lower_alone(
    alloc: Global,
    net: &mut GateList,
    design: &Design,
    nodes: &[Node],
    e: &Expr,
) -> Result<Vec<Node>, GateFault>
    requires has { HasNodes design.now nodes.now }
    requires nodes { AreThere net.old nodes.now }
    ensures builds { Builds (λ w. w.items) (spec.built_of (wired_in design.now nodes.now) e.now) net.old result net.new }
    ensures inside { IfOk result (λ w. AreThere net.new w.items) }
    ensures longer { length net.old ≤ length net.new }
{
    let context = extent(alloc, design, e)?;
    lower(alloc, net, design, nodes, e, context)
}

/// A bit by an index.
#[cycle(gates)]
fn index(
    alloc: Global,
    net: &mut GateList,
    design: &Design,
    nodes: &[Node],
    name: &[u8],
    at: &Expr,
    context: Extent,
) -> Result<Vec<Node>, GateFault>
    requires has { HasNodes design.now nodes.now }
    requires nodes { AreThere net.old nodes.now }
    ensures builds { Builds (λ w. w.items) ((spec.index_formed (wired_in design.now nodes.now name.now) (spec.lowered (wired_in design.now nodes.now) at.now)).gates (shape_of context)) net.old result net.new }
    ensures width { IfOk result (λ w. length w.items ≡ context.width) }
    ensures inside { IfOk result (λ w. AreThere net.new w.items) }
    ensures longer { length net.old ≤ length net.new }
{
    let view = wired(alloc, design, nodes, name)?;
    let bit = picked_by(alloc, net, design, nodes, &view, Part::Down, 1, at)?;
    extended(net, bit, context)
}

/// Bits from an index up or down.
#[cycle(gates)]
fn part_from(
    alloc: Global,
    net: &mut GateList,
    design: &Design,
    nodes: &[Node],
    name: &[u8],
    part: Part,
    first: &Expr,
    second: &Expr,
    context: Extent,
) -> Result<Vec<Node>, GateFault>
    requires has { HasNodes design.now nodes.now }
    requires nodes { AreThere net.old nodes.now }
    requires moving { part ≡ Fixed → ⊥ }
    ensures builds { Builds (λ w. w.items) ((spec.select_formed (wired_in design.now nodes.now name.now) part first.now (spec.lowered (wired_in design.now nodes.now) first.now) second.now).gates (shape_of context)) net.old result net.new }
    ensures width { IfOk result (λ w. length w.items ≡ context.width) }
    ensures inside { IfOk result (λ w. AreThere net.new w.items) }
    ensures longer { length net.old ≤ length net.new }
{
    let view = wired(alloc, design, nodes, name)?;
    let width = possible(count(alloc, second)?)?;
    let bits = picked_by(alloc, net, design, nodes, &view, part, width, first)?;
    extended(net, bits, context)
}

/// Bits of a view by an index.
#[cycle(gates)]
fn picked_by(
    alloc: Global,
    net: &mut GateList,
    design: &Design,
    nodes: &[Node],
    view: &View,
    part: Part,
    width: usize,
    at: &Expr,
) -> Result<Vec<Node>, GateFault>
    requires has { HasNodes design.now nodes.now }
    requires nodes { AreThere net.old nodes.now }
    requires view { AreThere net.old view.now.nodes.items }
    requires width { width < 2 ^ 63 }
    ensures builds { Builds (λ w. w.items) (spec.picked_by part (view_of view.now) width (spec.lowered (wired_in design.now nodes.now) at.now)) net.old result net.new }
    ensures inside { IfOk result (λ w. AreThere net.new w.items) }
    ensures longer { length net.old ≤ length net.new }
{
    let a = extent(alloc, design, at)?;
    let at = lower(alloc, net, design, nodes, at, a)?;
    let select = Select {
        part,
        range: view.range,
        width,
    };
    picked(alloc, net, select, view.nodes.as_slice(), a, at.as_slice())
}

/// Members side by side.
#[cycle(gates)]
fn concat(
    alloc: Global,
    net: &mut GateList,
    design: &Design,
    nodes: &[Node],
    members: &[Expr],
    context: Extent,
) -> Result<Vec<Node>, GateFault>
    requires has { HasNodes design.now nodes.now }
    requires nodes { AreThere net.old nodes.now }
    ensures builds { Builds (λ w. w.items) ((spec.concat_formed (map (spec.lowered (wired_in design.now nodes.now)) members.now)).gates (shape_of context)) net.old result net.new }
    ensures width { IfOk result (λ w. length w.items ≡ context.width) }
    ensures inside { IfOk result (λ w. AreThere net.new w.items) }
    ensures longer { length net.old ≤ length net.new }
{
    let word = joined(alloc, net, design, nodes, members)?;
    extended(net, word, context)
}

/// Copies of members.
#[cycle(gates)]
fn repeat(
    alloc: Global,
    net: &mut GateList,
    design: &Design,
    nodes: &[Node],
    number: &Expr,
    members: &[Expr],
    context: Extent,
) -> Result<Vec<Node>, GateFault>
    requires has { HasNodes design.now nodes.now }
    requires nodes { AreThere net.old nodes.now }
    ensures builds { Builds (λ w. w.items) ((spec.repeat_formed (count_alone number.now) (map (spec.lowered (wired_in design.now nodes.now)) members.now)).gates (shape_of context)) net.old result net.new }
    ensures width { IfOk result (λ w. length w.items ≡ context.width) }
    ensures inside { IfOk result (λ w. AreThere net.new w.items) }
    ensures longer { length net.old ≤ length net.new }
{
    let number = count(alloc, number)?;
    let word = joined(alloc, net, design, nodes, members)?;
    let all = copies(alloc, number, word.as_slice())?;
    extended(net, all, context)
}

/// Members from left to right, the first one at the top.
#[cycle(gates)]
#[tactic(auto, using(net_words::proofs::WordSteps::still_there))]
fn joined(
    alloc: Global,
    net: &mut GateList,
    design: &Design,
    nodes: &[Node],
    members: &[Expr],
) -> Result<Vec<Node>, GateFault>
    requires has { HasNodes design.now nodes.now }
    requires nodes { AreThere net.old nodes.now }
    ensures builds { Builds (λ w. w.items) (spec.joined (map (spec.lowered (wired_in design.now nodes.now)) members.now)) net.old result net.new }
    ensures inside { IfOk result (λ w. AreThere net.new w.items) }
    ensures longer { length net.old ≤ length net.new }
{
    let mut all = Vec::new(alloc);
    for member in members {
        let mut bits = match lower_alone(alloc, net, design, nodes, member) {
            Ok(bits) => bits,
            Err(fault) => return Err(fault),
        };
        bits.reverse();
        match all.append(&mut bits) {
            Ok(()) => {}
            Err(fault) => return Err(fault.into()),
        }
    }
    all.reverse();
    Ok(all)
}

/// An operator before its operand.
#[cycle(gates)]
fn unary(
    alloc: Global,
    net: &mut GateList,
    design: &Design,
    nodes: &[Node],
    op: Unary,
    inner: &Expr,
    context: Extent,
) -> Result<Vec<Node>, GateFault>
    requires has { HasNodes design.now nodes.now }
    requires nodes { AreThere net.old nodes.now }
    ensures builds { Builds (λ w. w.items) ((spec.unary_formed op (spec.lowered (wired_in design.now nodes.now) inner.now)).gates (shape_of context)) net.old result net.new }
    ensures width { IfOk result (λ w. length w.items ≡ context.width) }
    ensures inside { IfOk result (λ w. AreThere net.new w.items) }
    ensures longer { length net.old ≤ length net.new }
{
    let within = within(alloc, design, op, inner, context)?;
    let operand = lower(alloc, net, design, nodes, inner, within)?;
    prefixed(alloc, net, op, context, operand)
}

/// An operator between its operands, the left one first.
#[cycle(gates)]
fn binary(
    alloc: Global,
    net: &mut GateList,
    design: &Design,
    nodes: &[Node],
    op: Binary,
    left: &Expr,
    right: &Expr,
    context: Extent,
) -> Result<Vec<Node>, GateFault>
    requires has { HasNodes design.now nodes.now }
    requires nodes { AreThere net.old nodes.now }
    requires gates { is_computed op ≡ false }
    ensures builds { Builds (λ w. w.items) (spec.gates_word op (spec.lowered (wired_in design.now nodes.now) left.now) (spec.lowered (wired_in design.now nodes.now) right.now) (shape_of context)) net.old result net.new }
    ensures width { IfOk result (λ w. length w.items ≡ context.width) }
    ensures inside { IfOk result (λ w. AreThere net.new w.items) }
    ensures longer { length net.old ≤ length net.new }
{
    let signed = both_signed(alloc, design, op, left, right)?;
    let sides = sides(alloc, design, op, left, right, context)?;
    let x = lower(alloc, net, design, nodes, left, sides.0)?;
    let y = lower(alloc, net, design, nodes, right, sides.1)?;
    between(alloc, net, op, signed, context, x, y)
}

/// A choice, bit by bit.
#[cycle(gates)]
fn choice(
    alloc: Global,
    net: &mut GateList,
    design: &Design,
    nodes: &[Node],
    test: &Expr,
    left: &Expr,
    right: &Expr,
    context: Extent,
) -> Result<Vec<Node>, GateFault>
    requires has { HasNodes design.now nodes.now }
    requires nodes { AreThere net.old nodes.now }
    ensures builds { Builds (λ w. w.items) (spec.choice_word (spec.lowered (wired_in design.now nodes.now) test.now) (spec.lowered (wired_in design.now nodes.now) left.now) (spec.lowered (wired_in design.now nodes.now) right.now) (shape_of context)) net.old result net.new }
    ensures width { IfOk result (λ w. length w.items ≡ context.width) }
    ensures inside { IfOk result (λ w. AreThere net.new w.items) }
    ensures longer { length net.old ≤ length net.new }
{
    let test = lower_alone(alloc, net, design, nodes, test)?;
    let selection = any(net, test.as_slice())?;
    let x = lower(alloc, net, design, nodes, left, context)?;
    let y = lower(alloc, net, design, nodes, right, context)?;
    select(alloc, net, selection, x.as_slice(), y.as_slice())
}

/// The same as on the right of an assignment to `width` bits: in the larger width, by its own sign.
///
/// # Errors
/// As `lower`.
pub fn lower_within(
    alloc: Global,
    net: &mut GateList,
    design: &Design,
    nodes: &[Node],
    e: &Expr,
    width: usize,
) -> Result<Vec<Node>, GateFault>
    requires has { HasNodes design.now nodes.now }
    requires nodes { AreThere net.old nodes.now }
    ensures builds { Builds (λ w. w.items) (spec.built_within (wired_in design.now nodes.now) width e.now) net.old result net.new }
    ensures inside { IfOk result (λ w. AreThere net.new w.items) }
    ensures longer { length net.old ≤ length net.new }
{
    let own = extent(alloc, design, e)?;
    let context = Extent {
        width: own.width.max(width),
        signed: own.signed,
    };
    lower(alloc, net, design, nodes, e, context)
}
