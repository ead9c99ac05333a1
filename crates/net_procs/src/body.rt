//! Bodies of processes, statement by statement.
ghost use Rattle.std.specs.Prelude.{◌≡◌, ◌<◌, ◌≤◌, length, map, None, Some, IfOk};
ghost use Rattle.design_form.specs.Extents.{shape_of};
ghost use Rattle.net_words.specs.Builds.{Builds, AreThere};
ghost use Rattle.net_exprs.specs.Names.{HasNodes};
ghost use Rattle.proc_values.specs.Cases.{with_body};
ghost use Rattle.net_procs.specs.Bodies as spec;
ghost use Rattle.net_procs.specs.Cases.{body_at, case_run, item};
ghost use Rattle.net_procs.specs.Labels.{any_hit};
ghost use Rattle.net_procs.specs.Laws.{AreBits};
ghost use Rattle.net_procs.specs.Ready.{run_of, Fits, IsChoice, behind_one, step_of};

use crate::frame::Frame;
use crate::indices::is_full;
use crate::labels::{Choice, any_hit, choice_of};
use crate::wires::{Wires, chosen, copied, copy_of, nodes_of};
use crate::writes::{assign, tested};
use design_form::Design;
use net_gates::{GateFault, GateList, Node};
use proc_values::{is_at, standing};
use sqlite_items::Boxed;
use std::alloc::Global;
use vlog_tree::{Arm, Expr, Stmt};

/// What a statement makes of the nodes.
#[cycle(running)]
fn run(
    alloc: Global,
    net: &mut GateList,
    frame: &Frame<'_>,
    s: &Stmt,
    wires: Wires,
) -> Result<Wires, GateFault>
    requires fits { Fits frame.now net.old (run_of wires) }
    ensures builds { Builds run_of (step_of frame.now s.now (run_of wires)) net.old result net.new }
    ensures fits { IfOk result (λ r. Fits frame.now net.new (run_of r)) }
    ensures longer { length net.old ≤ length net.new }
{
    match s {
        Stmt::Empty(_) => Ok(wires),
        Stmt::Block(_, _, inner) => run_all(alloc, net, frame, inner.as_slice(), wires),
        Stmt::Assign(_, target, by, value) => {
            assign(alloc, net, frame, target, *by, value, wires)
        }
        Stmt::If(_, test, first, other) => {
            let choice = tested(alloc, net, frame.design, test, wires.seen.as_slice())?;
            let one = run_copy(alloc, net, frame, first.get(), &wires)?;
            match other {
                None => chosen(alloc, net, frame, choice, &one, wires),
                Some(other) => run_other(alloc, net, frame, choice, &one, other.get(), wires),
            }
        }
        Stmt::Case(_, how, selector, arms) => {
            let (nodes, arms) = (wires.seen.as_slice(), arms.as_slice());
            let full = is_full(alloc, frame.design, *how, selector, arms)?;
            let choice = choice_of(alloc, net, frame.design, nodes, *how, selector, arms)?;
            let at = standing(full, arms);
            run_items(alloc, net, frame, &choice, at, arms, &wires)
        }
        Stmt::For(_, _, body) => run(alloc, net, frame, body.get(), wires),
    }
}

/// Statements, one after the other.
#[cycle(running)]
fn run_all(
    alloc: Global,
    net: &mut GateList,
    frame: &Frame<'_>,
    ss: &[Stmt],
    wires: Wires,
) -> Result<Wires, GateFault>
    requires fits { Fits frame.now net.old (run_of wires) }
    ensures builds { Builds run_of (spec.in_order (map (step_of frame.now) ss.now) (run_of wires)) net.old result net.new }
    ensures fits { IfOk result (λ r. Fits frame.now net.new (run_of r)) }
    ensures longer { length net.old ≤ length net.new }
{
    let mut wires = wires;
    for i in 0..ss.len() {
        wires = match run(alloc, net, frame, &ss[i], wires) {
            Ok(wires) => wires,
            Err(fault) => return Err(fault),
        };
    }
    Ok(wires)
}

/// What a statement makes of a copy of the nodes.
#[cycle(running)]
fn run_copy(
    alloc: Global,
    net: &mut GateList,
    frame: &Frame<'_>,
    s: &Stmt,
    wires: &Wires,
) -> Result<Wires, GateFault>
    requires fits { Fits frame.now net.old (run_of wires.now) }
    ensures builds { Builds run_of (step_of frame.now s.now (run_of wires.now)) net.old result net.new }
    ensures fits { IfOk result (λ r. Fits frame.now net.new (run_of r)) }
    ensures longer { length net.old ≤ length net.new }
{
    let copy = copied(alloc, wires)?;
    run(alloc, net, frame, s, copy)
}

/// The second side of a choice, from the nodes from which the first one started.
#[cycle(running)]
fn run_other(
    alloc: Global,
    net: &mut GateList,
    frame: &Frame<'_>,
    choice: Node,
    one: &Wires,
    other: &Stmt,
    wires: Wires,
) -> Result<Wires, GateFault>
    requires choice { choice < length net.old }
    requires one { Fits frame.now net.old (run_of one.now) }
    requires fits { Fits frame.now net.old (run_of wires) }
    ensures builds { Builds run_of (behind_one frame.now choice (run_of one.now) (step_of frame.now other.now) (run_of wires)) net.old result net.new }
    ensures fits { IfOk result (λ r. Fits frame.now net.new (run_of r)) }
    ensures longer { length net.old ≤ length net.new }
{
    let two = run(alloc, net, frame, other, wires)?;
    chosen(alloc, net, frame, choice, one, two)
}

/// The item that stands for the default, or nothing.
#[cycle(running)]
fn run_standing(
    alloc: Global,
    net: &mut GateList,
    frame: &Frame<'_>,
    at: Option<usize>,
    arms: &[Arm<Boxed<Stmt>>],
    wires: &Wires,
) -> Result<Wires, GateFault>
    requires fits { Fits frame.now net.old (run_of wires.now) }
    ensures builds { Builds run_of (body_at at (map (with_body (step_of frame.now)) arms.now) (run_of wires.now)) net.old result net.new }
    ensures fits { IfOk result (λ r. Fits frame.now net.new (run_of r)) }
    ensures longer { length net.old ≤ length net.new }
{
    match at {
        None => copied(alloc, wires),
        Some(i) => {
            if arms.len() <= i {
                return copied(alloc, wires);
            }
            run_copy(alloc, net, frame, arms[i].body.get(), wires)
        }
    }
}

/// An item before what comes behind it.
#[cycle(running)]
fn run_item(
    alloc: Global,
    net: &mut GateList,
    frame: &Frame<'_>,
    choice: &Choice,
    body: &Stmt,
    labels: &[Expr],
    wires: &Wires,
    rest: Wires,
) -> Result<Wires, GateFault>
    requires choice { IsChoice net.old choice.now }
    requires fits { Fits frame.now net.old (run_of wires.now) }
    requires rest { Fits frame.now net.old (run_of rest) }
    ensures builds { Builds run_of (item frame.now.reads.now frame.now.bits.now (any_hit frame.now.design.now wires.now.seen.items choice.now.how (shape_of choice.now.context) choice.now.word.items labels.now) (step_of frame.now body.now) (run_of wires.now) (run_of rest)) net.old result net.new }
    ensures fits { IfOk result (λ r. Fits frame.now net.new (run_of r)) }
    ensures longer { length net.old ≤ length net.new }
{
    let nodes = wires.seen.as_slice();
    let hit = any_hit(alloc, net, frame.design, nodes, choice, labels)?;
    let one = run_copy(alloc, net, frame, body, wires)?;
    chosen(alloc, net, frame, hit, &one, rest)
}

/// The items of a `case`, the last one first.
#[cycle(running)]
fn run_items(
    alloc: Global,
    net: &mut GateList,
    frame: &Frame<'_>,
    choice: &Choice,
    at: Option<usize>,
    arms: &[Arm<Boxed<Stmt>>],
    wires: &Wires,
) -> Result<Wires, GateFault>
    requires choice { IsChoice net.old choice.now }
    requires fits { Fits frame.now net.old (run_of wires.now) }
    ensures builds { Builds run_of (case_run frame.now.reads.now frame.now.bits.now (any_hit frame.now.design.now wires.now.seen.items choice.now.how (shape_of choice.now.context) choice.now.word.items) at (map (with_body (step_of frame.now)) arms.now) (run_of wires.now)) net.old result net.new }
    ensures fits { IfOk result (λ r. Fits frame.now net.new (run_of r)) }
    ensures longer { length net.old ≤ length net.new }
{
    let mut rest = match run_standing(alloc, net, frame, at, arms, wires) {
        Ok(rest) => rest,
        Err(fault) => return Err(fault),
    };
    let mut left = arms.len();
    while 0 < left {
        left -= 1;
        let arm = &arms[left];
        let (labels, body) = (arm.labels.as_slice(), arm.body.get());
        if !is_at(at, left) {
            rest = match run_item(alloc, net, frame, choice, body, labels, wires, rest) {
                Ok(rest) => rest,
                Err(fault) => return Err(fault),
            };
        }
    }
    Ok(rest)
}

/// The gates of a body, where each bit of the design has a node, and the nodes that `bits` become, in the order of the bits.
/// Later reads see what is assigned to `reads`: `bits` again for a process without edges; for one with edges the bits of the
/// variables of its loops, or none where nothing reads one behind its loop.
/// A body has no loops; one would be its body, run once.
///
/// # Errors
/// `Full` where the gates don't fit the list, and `Memory`.
pub fn draw(
    alloc: Global,
    net: &mut GateList,
    design: &Design,
    nodes: &[Node],
    reads: &[u32],
    bits: &[u32],
    body: &Stmt,
) -> Result<Vec<Node>, GateFault>
    requires has { HasNodes design.now nodes.now }
    requires reads { AreBits reads.now nodes.now }
    requires bits { AreBits bits.now nodes.now }
    requires nodes { AreThere net.old nodes.now }
    ensures builds { Builds (λ w. w.items) (spec.drawn design.now reads.now bits.now body.now nodes.now) net.old result net.new }
    ensures inside { IfOk result (λ w. AreThere net.new w.items) }
    ensures longer { length net.old ≤ length net.new }
{
    let frame = Frame {
        design,
        reads,
        bits,
    };
    let seen = copy_of(alloc, nodes)?;
    let becomes = copy_of(alloc, nodes)?;
    let after = run(alloc, net, &frame, body, Wires { seen, becomes })?;
    nodes_of(alloc, after.becomes.as_slice(), bits)
}
