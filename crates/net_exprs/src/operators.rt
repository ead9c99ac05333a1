//! The gates of operators, over words that stand in one context.
ghost use Rattle.std.specs.Prelude.{◌≡◌, false, ◌<◌, ◌≤◌, length, IfOk};
ghost use Rattle.design_form.specs.Extents.{shape_of};
ghost use Rattle.design_form.specs.Values.{is_computed};
ghost use Rattle.net_words.specs.Builds.{Builds, AreThere};
ghost use Rattle.net_words.specs.Words as words;
ghost use Rattle.net_words.specs.Comparisons as comparisons;
ghost use Rattle.net_exprs.specs.Operators as spec;
ghost use Rattle.net_exprs.specs.Alike.{AreAlike, Fits};
ghost use Rattle.vlog_const.specs.Widths.{family_of, operand_family};

use crate::extensions::one_bit;
use design_form::Extent;
use net_gates::{GateFault, GateList, Node};
use net_view::Gate;
use net_words::{
    Bitwise, add, all, any, bit, each, eq, inverted, lt, lt_signed, mul, neg, parity, put, sar,
    shl, shr, sub,
};
use std::alloc::Global;
use vlog_tree::{Binary, Unary};

/// `!` and `~|`
fn not_any(net: &mut GateList, a: &[Node]) -> Result<Node, GateFault>
    requires { AreThere net.old a.now }
    ensures builds { Builds (λ n. n) (spec.not_after (words.any a.now)) net.old result net.new }
    ensures inside { IfOk result (λ n. n < length net.new) }
    ensures longer { length net.old ≤ length net.new }
{
    let found = any(net, a)?;
    put(net, Gate::Not(found))
}

/// `~&`
fn not_all(net: &mut GateList, a: &[Node]) -> Result<Node, GateFault>
    requires { AreThere net.old a.now }
    ensures builds { Builds (λ n. n) (spec.not_after (words.all a.now)) net.old result net.new }
    ensures inside { IfOk result (λ n. n < length net.new) }
    ensures longer { length net.old ≤ length net.new }
{
    let found = all(net, a)?;
    put(net, Gate::Not(found))
}

/// `~^`
fn not_parity(net: &mut GateList, a: &[Node]) -> Result<Node, GateFault>
    requires { AreThere net.old a.now }
    ensures builds { Builds (λ n. n) (spec.not_after (words.parity a.now)) net.old result net.new }
    ensures inside { IfOk result (λ n. n < length net.new) }
    ensures longer { length net.old ≤ length net.new }
{
    let found = parity(net, a)?;
    put(net, Gate::Not(found))
}

/// Over all bits of a word; `! ~& ~| ~^` are the inverse.
#[tactic(auto, unfolding(crate::specs::Operators::reduced))]
fn reduced(net: &mut GateList, op: Unary, a: &[Node]) -> Result<Node, GateFault>
    requires { AreThere net.old a.now }
    ensures builds { Builds (λ n. n) (spec.reduced op a.now) net.old result net.new }
    ensures inside { IfOk result (λ n. n < length net.new) }
    ensures longer { length net.old ≤ length net.new }
{
    match op {
        Unary::Not | Unary::ReduceNor => not_any(net, a),
        Unary::ReduceOr => any(net, a),
        Unary::ReduceAnd => all(net, a),
        Unary::ReduceNand => not_all(net, a),
        Unary::ReduceXor => parity(net, a),
        Unary::ReduceXnor => not_parity(net, a),
        Unary::Plus | Unary::Minus | Unary::Invert => put(net, Gate::Const(false)),
    }
}

/// The same in a context.
fn reduced_in(
    alloc: Global,
    net: &mut GateList,
    op: Unary,
    context: Extent,
    a: &[Node],
) -> Result<Vec<Node>, GateFault>
    requires { AreThere net.old a.now }
    ensures builds { Builds (λ w. w.items) (spec.one_bit (shape_of context) (spec.reduced op a.now)) net.old result net.new }
    ensures width { IfOk result (λ w. length w.items ≡ context.width) }
    ensures inside { IfOk result (λ w. AreThere net.new w.items) }
    ensures longer { length net.old ≤ length net.new }
{
    let found = reduced(net, op, a)?;
    one_bit(alloc, net, found, context)
}

/// An operator before its operand, which stands in its own context.
#[tactic(auto, unfolding(crate::specs::Operators::before, vlog_const::specs::Widths::operand_family))]
pub(crate) fn prefixed(
    alloc: Global,
    net: &mut GateList,
    op: Unary,
    context: Extent,
    a: Vec<Node>,
) -> Result<Vec<Node>, GateFault>
    requires fits { Fits (operand_family op) (shape_of context) a.items }
    requires there { AreThere net.old a.items }
    ensures builds { Builds (λ w. w.items) (spec.before op (shape_of context) a.items) net.old result net.new }
    ensures width { IfOk result (λ w. length w.items ≡ context.width) }
    ensures inside { IfOk result (λ w. AreThere net.new w.items) }
    ensures longer { length net.old ≤ length net.new }
{
    match op {
        Unary::Plus => Ok(a),
        Unary::Minus => neg(alloc, net, a.as_slice()),
        Unary::Invert => inverted(alloc, net, a.as_slice()),
        Unary::Not
        | Unary::ReduceAnd
        | Unary::ReduceNand
        | Unary::ReduceOr
        | Unary::ReduceNor
        | Unary::ReduceXor
        | Unary::ReduceXnor => reduced_in(alloc, net, op, context, a.as_slice()),
    }
}

/// `a < b`
#[tactic(auto, unfolding(crate::specs::Operators::less))]
fn less(
    alloc: Global,
    net: &mut GateList,
    signed: bool,
    a: &[Node],
    b: &[Node],
) -> Result<Node, GateFault>
    requires width { length a.now ≡ length b.now }
    requires a { AreThere net.old a.now }
    requires b { AreThere net.old b.now }
    ensures builds { Builds (λ n. n) (spec.less signed a.now b.now) net.old result net.new }
    ensures inside { IfOk result (λ n. n < length net.new) }
    ensures longer { length net.old ≤ length net.new }
{
    if signed {
        lt_signed(alloc, net, a, b)
    } else {
        lt(net, a, b)
    }
}

/// The inverse of `a < b`.
fn not_less(
    alloc: Global,
    net: &mut GateList,
    signed: bool,
    a: &[Node],
    b: &[Node],
) -> Result<Node, GateFault>
    requires width { length a.now ≡ length b.now }
    requires a { AreThere net.old a.now }
    requires b { AreThere net.old b.now }
    ensures builds { Builds (λ n. n) (spec.not_after (spec.less signed a.now b.now)) net.old result net.new }
    ensures inside { IfOk result (λ n. n < length net.new) }
    ensures longer { length net.old ≤ length net.new }
{
    let found = less(alloc, net, signed, a, b)?;
    put(net, Gate::Not(found))
}

/// `a != b`
fn not_eq(alloc: Global, net: &mut GateList, a: &[Node], b: &[Node]) -> Result<Node, GateFault>
    requires width { length a.now ≡ length b.now }
    requires a { AreThere net.old a.now }
    requires b { AreThere net.old b.now }
    ensures builds { Builds (λ n. n) (spec.not_after (comparisons.eq a.now b.now)) net.old result net.new }
    ensures inside { IfOk result (λ n. n < length net.new) }
    ensures longer { length net.old ≤ length net.new }
{
    let found = eq(alloc, net, a, b)?;
    put(net, Gate::Not(found))
}

/// `< <= > >= == != === !==`
#[tactic(auto, unfolding(crate::specs::Operators::compared))]
fn compared(
    alloc: Global,
    net: &mut GateList,
    op: Binary,
    signed: bool,
    a: &[Node],
    b: &[Node],
) -> Result<Node, GateFault>
    requires width { length a.now ≡ length b.now }
    requires a { AreThere net.old a.now }
    requires b { AreThere net.old b.now }
    ensures builds { Builds (λ n. n) (spec.compared op signed a.now b.now) net.old result net.new }
    ensures inside { IfOk result (λ n. n < length net.new) }
    ensures longer { length net.old ≤ length net.new }
{
    match op {
        Binary::Less => less(alloc, net, signed, a, b),
        Binary::Greater => less(alloc, net, signed, b, a),
        Binary::AtMost => not_less(alloc, net, signed, b, a),
        Binary::AtLeast => not_less(alloc, net, signed, a, b),
        Binary::Equal | Binary::CaseEqual => eq(alloc, net, a, b),
        Binary::NotEqual | Binary::CaseNotEqual => not_eq(alloc, net, a, b),
        _ => put(net, Gate::Const(false)),
    }
}

/// The same in a context.
fn compared_in(
    alloc: Global,
    net: &mut GateList,
    op: Binary,
    signed: bool,
    context: Extent,
    a: &[Node],
    b: &[Node],
) -> Result<Vec<Node>, GateFault>
    requires width { length a.now ≡ length b.now }
    requires a { AreThere net.old a.now }
    requires b { AreThere net.old b.now }
    ensures builds { Builds (λ w. w.items) (spec.one_bit (shape_of context) (spec.compared op signed a.now b.now)) net.old result net.new }
    ensures width { IfOk result (λ w. length w.items ≡ context.width) }
    ensures inside { IfOk result (λ w. AreThere net.new w.items) }
    ensures longer { length net.old ≤ length net.new }
{
    let found = compared(alloc, net, op, signed, a, b)?;
    one_bit(alloc, net, found, context)
}

/// `&&` and `||`, over the OR of all bits of each operand.
fn logical(net: &mut GateList, op: Bitwise, a: &[Node], b: &[Node]) -> Result<Node, GateFault>
    requires a { AreThere net.old a.now }
    requires b { AreThere net.old b.now }
    ensures builds { Builds (λ n. n) (spec.logical op a.now b.now) net.old result net.new }
    ensures inside { IfOk result (λ n. n < length net.new) }
    ensures longer { length net.old ≤ length net.new }
{
    let x = any(net, a)?;
    let y = any(net, b)?;
    bit(net, op, x, y)
}

/// The same in a context.
fn logical_in(
    alloc: Global,
    net: &mut GateList,
    op: Bitwise,
    context: Extent,
    a: &[Node],
    b: &[Node],
) -> Result<Vec<Node>, GateFault>
    requires a { AreThere net.old a.now }
    requires b { AreThere net.old b.now }
    ensures builds { Builds (λ w. w.items) (spec.one_bit (shape_of context) (spec.logical op a.now b.now)) net.old result net.new }
    ensures width { IfOk result (λ w. length w.items ≡ context.width) }
    ensures inside { IfOk result (λ w. AreThere net.new w.items) }
    ensures longer { length net.old ≤ length net.new }
{
    let found = logical(net, op, a, b)?;
    one_bit(alloc, net, found, context)
}

/// `>>>`: filled with the top bit where the value is signed and has one.
#[tactic(auto, unfolding(crate::specs::Operators::right))]
fn right(
    alloc: Global,
    net: &mut GateList,
    signed: bool,
    a: Vec<Node>,
    amount: &[Node],
) -> Result<Vec<Node>, GateFault>
    requires a { AreThere net.old a.items }
    requires amount { AreThere net.old amount.now }
    ensures builds { Builds (λ w. w.items) (spec.right signed a.items amount.now) net.old result net.new }
    ensures width { IfOk result (λ w. length w.items ≡ length a.items) }
    ensures inside { IfOk result (λ w. AreThere net.new w.items) }
    ensures longer { length net.old ≤ length net.new }
{
    if !signed {
        return shr(alloc, net, a.as_slice(), amount);
    }
    filled(alloc, net, a, amount)
}

/// Down, filled with the top bit where there is one.
fn filled(
    alloc: Global,
    net: &mut GateList,
    a: Vec<Node>,
    amount: &[Node],
) -> Result<Vec<Node>, GateFault>
    requires a { AreThere net.old a.items }
    requires amount { AreThere net.old amount.now }
    ensures builds { Builds (λ w. w.items) (spec.filled a.items amount.now) net.old result net.new }
    ensures width { IfOk result (λ w. length w.items ≡ length a.items) }
    ensures inside { IfOk result (λ w. AreThere net.new w.items) }
    ensures longer { length net.old ≤ length net.new }
{
    if a.is_empty() {
        return Ok(a);
    }
    sar(alloc, net, a.as_slice(), amount)
}

/// An operator between its operands, each of which stands in its own context.
#[tactic(auto, unfolding(crate::specs::Operators::between, vlog_const::specs::Widths::family_of, design_form::specs::Values::is_computed, vlog_const::specs::Operations::is_division, vlog_const::specs::Operations::is_power))]
pub(crate) fn between(
    alloc: Global,
    net: &mut GateList,
    op: Binary,
    signed: bool,
    context: Extent,
    a: Vec<Node>,
    b: Vec<Node>,
) -> Result<Vec<Node>, GateFault>
    requires alike { AreAlike (family_of op) (shape_of context) a.items b.items }
    requires a { AreThere net.old a.items }
    requires b { AreThere net.old b.items }
    requires gates { is_computed op ≡ false }
    ensures builds { Builds (λ w. w.items) (spec.between op signed (shape_of context) a.items b.items) net.old result net.new }
    ensures width { IfOk result (λ w. length w.items ≡ context.width) }
    ensures inside { IfOk result (λ w. AreThere net.new w.items) }
    ensures longer { length net.old ≤ length net.new }
{
    let (x, y) = (a.as_slice(), b.as_slice());
    match op {
        Binary::Add => add(alloc, net, x, y),
        Binary::Subtract => sub(alloc, net, x, y),
        Binary::Multiply => mul(alloc, net, x, y),
        Binary::And => each(alloc, net, Bitwise::And, x, y),
        Binary::Or => each(alloc, net, Bitwise::Or, x, y),
        Binary::Xor => each(alloc, net, Bitwise::Xor, x, y),
        Binary::Xnor => each(alloc, net, Bitwise::Xnor, x, y),
        Binary::ShiftLeft | Binary::ArithmeticShiftLeft => shl(alloc, net, x, y),
        Binary::ShiftRight => shr(alloc, net, x, y),
        Binary::ArithmeticShiftRight => right(alloc, net, context.signed, a, y),
        Binary::LogicalAnd => logical_in(alloc, net, Bitwise::And, context, x, y),
        Binary::LogicalOr => logical_in(alloc, net, Bitwise::Or, context, x, y),
        Binary::Less
        | Binary::AtMost
        | Binary::Greater
        | Binary::AtLeast
        | Binary::Equal
        | Binary::NotEqual
        | Binary::CaseEqual
        | Binary::CaseNotEqual => compared_in(alloc, net, op, signed, context, x, y),
        Binary::Divide | Binary::Remainder | Binary::Power => unreachable!(),
    }
}
