//! Nets gate by gate: what folds, what stays, what nodes are worth, and what a finished net says of itself.
ghost use Rattle.std.specs.Prelude.{◌≡◌, ◌<◌, ◌≤◌, [], ◌∷◌, length, IfOk};
ghost use Rattle.net_view.specs.declared.flop_net.SrcKind.TheVariants.{Port};

use net_core::{FlatNet, NetBuilder, NetFault, Node};
use net_view::{FlopNet, FlopOf, Gate, SrcKind, View, eval_into};
use rdc_tern::Tern;
use std::alloc::{AllocError, Global};
use std::test::Fail;

const O: Tern = Tern::Zero;

const I: Tern = Tern::One;

const X: Tern = Tern::Unsettled;

/// A net of the ports a and d, and their nodes.
fn two_ports(alloc: Global) -> Result<(NetBuilder, Node, Node), NetFault>
    ensures a { IfOk result (λ r. r.1 < length r.0.gates) }
    ensures d { IfOk result (λ r. r.2 < length r.0.gates) }
    ensures kinds { IfOk result (λ r. r.0.kinds ≡ Port ∷ Port ∷ []) }
    ensures bits { IfOk result (λ r. r.0.bits ≡ []) }
{
    let mut net = NetBuilder::new(alloc);
    let (_, a) = net.source("a")?;
    let (_, d) = net.source("d")?;
    Ok((net, a, d))
}

/// The net of two ports, finished without a bit.
fn finished(net: NetBuilder) -> FlatNet
    requires kinds { net.kinds ≡ Port ∷ Port ∷ [] }
    requires bits { net.bits ≡ [] }
{
    net.finish()
}

/// The value of a node in a state of the sources; X where the state doesn't fit.
fn value_at(alloc: Global, net: &FlatNet, node: Node, state: &[Tern]) -> Result<Tern, AllocError> {
    let mut values = vec![in alloc; X; net.nodes() as usize]?;
    if state.len() != net.sources() as usize {
        return Ok(X);
    }
    eval_into(net, state, &mut values);
    Ok(values.get(node.number() as usize).copied().unwrap_or(X))
}

/// The nodes of and, or and exclusive or of two nodes.
fn over(net: &mut NetBuilder, a: Node, b: Node) -> Result<(u64, u64, u64), NetFault>
    requires a { a < length net.old.gates }
    requires b { b < length net.old.gates }
    ensures grows { length net.old.gates ≤ length net.new.gates }
{
    let and = net.add(Gate::And(a, b))?;
    let or = net.add(Gate::Or(a, b))?;
    let xor = net.add(Gate::Xor(a, b))?;
    Ok((and.number(), or.number(), xor.number()))
}

/// The node of the negation of the negation of a node.
fn twice_negated(net: &mut NetBuilder, a: Node) -> Result<u64, NetFault>
    requires a { a < length net.old.gates }
    ensures grows { length net.old.gates ≤ length net.new.gates }
{
    let not_a = net.add(Gate::Not(a))?;
    let node = net.add(Gate::Not(not_a))?;
    Ok(node.number())
}

/// The nodes of 1 and of 0.
fn constants(net: &mut NetBuilder) -> Result<(Node, Node), NetFault>
    ensures one { IfOk result (λ r. r.0 < length net.new.gates) }
    ensures zero { IfOk result (λ r. r.1 < length net.new.gates) }
    ensures grows { length net.old.gates ≤ length net.new.gates }
{
    let one = net.add(Gate::Const(true))?;
    let zero = net.add(Gate::Const(false))?;
    Ok((one, zero))
}

/// What stands for gates over equal nodes, and over a and 1.
fn over_equals(net: &mut NetBuilder, a: Node) -> Result<[(u64, u64, u64); 2], NetFault>
    requires { a < length net.old.gates }
{
    let (one, _) = constants(net)?;
    let equal = over(net, a, a)?;
    let with_one = over(net, a, one)?;
    Ok([equal, with_one])
}

/// What stands for gates over 0 and a, and over 1 and 0.
fn over_constants(net: &mut NetBuilder, a: Node) -> Result<[(u64, u64, u64); 2], NetFault>
    requires { a < length net.old.gates }
{
    let (one, zero) = constants(net)?;
    let with_zero = over(net, zero, a)?;
    let constant = over(net, one, zero)?;
    Ok([with_zero, constant])
}

/// What stands for the negations of the negations of a and of 1.
fn negated(net: &mut NetBuilder, a: Node) -> Result<(u64, u64), NetFault>
    requires { a < length net.old.gates }
{
    let (one, _) = constants(net)?;
    let of_a = twice_negated(net, a)?;
    let of_one = twice_negated(net, one)?;
    Ok((of_a, of_one))
}

fn folds_of_a(alloc: Global) -> Result<[(u64, u64, u64); 2], NetFault> {
    let (mut net, a, _) = two_ports(alloc)?;
    over_equals(&mut net, a)
}

fn folds_of_constants(alloc: Global) -> Result<[(u64, u64, u64); 2], NetFault> {
    let (mut net, a, _) = two_ports(alloc)?;
    over_constants(&mut net, a)
}

fn negations(alloc: Global) -> Result<(u64, u64), NetFault> {
    let (mut net, a, _) = two_ports(alloc)?;
    negated(&mut net, a)
}

/// The net of `a ^ a`, `a & ~a` and `a | ~a`.
fn stuck(alloc: Global) -> Result<(FlatNet, [Node; 3]), NetFault> {
    let (mut net, a, _) = two_ports(alloc)?;
    let not_a = net.add(Gate::Not(a))?;
    let same = net.add(Gate::Xor(a, a))?;
    let both = net.add(Gate::And(a, not_a))?;
    let either = net.add(Gate::Or(a, not_a))?;
    Ok((finished(net), [same, both, either]))
}

/// The net of `a ? d : d`, as a selection is written in gates.
fn selection(alloc: Global) -> Result<(FlatNet, Node), NetFault> {
    let (mut net, a, d) = two_ports(alloc)?;
    let left = net.add(Gate::And(a, d))?;
    let not_a = net.add(Gate::Not(a))?;
    let right = net.add(Gate::And(not_a, d))?;
    let chosen = net.add(Gate::Or(left, right))?;
    Ok((finished(net), chosen))
}

/// The values of a node where a and d are X and 1, X and 0, 1 and 1, 0 and 1.
fn values_of(alloc: Global, net: &FlatNet, node: Node) -> Result<[Tern; 4], AllocError> {
    let moving = value_at(alloc, net, node, &[X, I])?;
    let moving_low = value_at(alloc, net, node, &[X, O])?;
    let high = value_at(alloc, net, node, &[I, I])?;
    let low = value_at(alloc, net, node, &[O, I])?;
    Ok([moving, moving_low, high, low])
}

#[test]
fn what_is_true_of_all_three_values_folds(rt: HostRuntime) -> Result<(), Fail> {
    let folds = folds_of_a(rt.alloc())?;
    assert_eq!(rt; folds[0], (0, 0, 4), "a xor a stays");
    assert_eq!(rt; folds[1], (0, 2, 5), "a xor 1 is a new not a");
    let folds = folds_of_constants(rt.alloc())?;
    assert_eq!(rt; folds[0], (3, 0, 0));
    assert_eq!(rt; folds[1], (3, 2, 4), "1 xor 0 is a new 1");
    assert_eq!(rt;
        negations(rt.alloc())?,
        (0, 6),
        "a new not a, then a new 0 and a new 1"
    );
    Ok(())
}

#[test]
fn what_is_x_at_x_stays(rt: HostRuntime) -> Result<(), Fail> {
    let (net, nodes) = stuck(rt.alloc())?;
    assert_eq!(rt;
        (net.nodes(), nodes[0].number(), nodes[2].number()),
        (6, 3, 5)
    );
    assert_eq!(rt; values_of(rt.alloc(), &net, nodes[0])?, [X, X, O, O]);
    assert_eq!(rt; values_of(rt.alloc(), &net, nodes[1])?, [X, X, O, O]);
    assert_eq!(rt; values_of(rt.alloc(), &net, nodes[2])?, [X, X, I, I]);
    Ok(())
}

#[test]
fn a_selection_of_equals_is_x_where_its_condition_is(rt: HostRuntime) -> Result<(), Fail> {
    let (net, chosen) = selection(rt.alloc())?;
    assert_eq!(rt; values_of(rt.alloc(), &net, chosen)?, [X, O, I, I]);
    Ok(())
}
