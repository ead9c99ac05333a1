//! Assignments, and tests of choices.
ghost use Rattle.std.specs.Prelude.{◌≡◌, ◌<◌, ◌≤◌, length, IfOk};
ghost use Rattle.net_words.specs.Builds.{Builds, AreThere};
ghost use Rattle.net_exprs.specs.Names.{HasNodes};
ghost use Rattle.net_procs.specs.Bodies as spec;
ghost use Rattle.net_procs.specs.Ready.{run_of, AreStrokes, Fits};

use crate::changes::strike;
use crate::frame::Frame;
use crate::indices::width_of;
use crate::stroke::Stroke;
use crate::targets::strokes;
use crate::wires::Wires;
use design_form::Design;
use net_exprs::{lower_alone, lower_within};
use net_gates::{GateFault, GateList, Node};
use net_words::any;
use std::alloc::Global;
use vlog_tree::{Assigns, Expr};

/// Strokes on what each bit becomes, and behind them on what reads see where the assignment is blocking.
fn write(
    net: &mut GateList,
    frame: &Frame<'_>,
    strokes: &[Stroke],
    by: Assigns,
    wires: Wires,
) -> Result<Wires, GateFault>
    requires fits { Fits frame.now net.old (run_of wires) }
    requires strokes { AreStrokes net.old strokes.now }
    ensures builds { Builds run_of (spec.written frame.now.reads.now frame.now.bits.now by strokes.now (run_of wires)) net.old result net.new }
    ensures fits { IfOk result (λ r. Fits frame.now net.new (run_of r)) }
    ensures longer { length net.old ≤ length net.new }
{
    let Wires {
        mut seen,
        mut becomes,
    } = wires;
    strike(net, frame.bits, strokes, &mut becomes)?;
    match by {
        Assigns::Blocking => {
            strike(net, frame.reads, strokes, &mut seen)?;
            Ok(Wires { seen, becomes })
        }
        Assigns::Nonblocking => Ok(Wires { seen, becomes }),
    }
}

/// What an assignment writes: the value is drawn as on the right of an assignment to the target's width, then the target.
fn strokes_of(
    alloc: Global,
    net: &mut GateList,
    design: &Design,
    target: &Expr,
    value: &Expr,
    nodes: &[Node],
) -> Result<Vec<Stroke>, GateFault>
    requires has { HasNodes design.now nodes.now }
    requires nodes { AreThere net.old nodes.now }
    ensures builds { Builds (λ ks. ks.items) (spec.strokes_of design.now target.now value.now nodes.now) net.old result net.new }
    ensures inside { IfOk result (λ ks. AreStrokes net.new ks.items) }
    ensures longer { length net.old ≤ length net.new }
{
    let width = width_of(alloc, design, target)?;
    let word = lower_within(alloc, net, design, nodes, value, width)?;
    strokes(alloc, net, design, nodes, target, word.as_slice())
}

/// An assignment.
pub(crate) fn assign(
    alloc: Global,
    net: &mut GateList,
    frame: &Frame<'_>,
    target: &Expr,
    by: Assigns,
    value: &Expr,
    wires: Wires,
) -> Result<Wires, GateFault>
    requires fits { Fits frame.now net.old (run_of wires) }
    ensures builds { Builds run_of (spec.assign frame.now.design.now frame.now.reads.now frame.now.bits.now target.now by value.now (run_of wires)) net.old result net.new }
    ensures fits { IfOk result (λ r. Fits frame.now net.new (run_of r)) }
    ensures longer { length net.old ≤ length net.new }
{
    let nodes = wires.seen.as_slice();
    let strokes = strokes_of(alloc, net, frame.design, target, value, nodes)?;
    write(net, frame, strokes.as_slice(), by, wires)
}

/// Whether the test of an `if` holds.
pub(crate) fn tested(
    alloc: Global,
    net: &mut GateList,
    design: &Design,
    test: &Expr,
    nodes: &[Node],
) -> Result<Node, GateFault>
    requires has { HasNodes design.now nodes.now }
    requires nodes { AreThere net.old nodes.now }
    ensures builds { Builds (λ n. n) (spec.tested design.now test.now nodes.now) net.old result net.new }
    ensures inside { IfOk result (λ n. n < length net.new) }
    ensures longer { length net.old ≤ length net.new }
{
    let word = lower_alone(alloc, net, design, nodes, test)?;
    any(net, word.as_slice())
}
