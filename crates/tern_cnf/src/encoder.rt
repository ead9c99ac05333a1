//! The clauses of a view and of a question.
ghost use Rattle.std.specs.Prelude.{◌≡◌, ◌*◌, ◌<◌, ◌≤◌, ◌^◌, ⊤, length, IfOk, OnOk, map};
ghost use Rattle.std.specs.List.{All};
ghost use Rattle.net_view.specs.View.{Reads, renumbered, IsGateAt};
ghost use Rattle.tern_cnf.specs.Rails.{clauses_from, clauses_of};
ghost use Rattle.tern_cnf.specs.Asked.{variables, AreSources, CanBeAdded};
ghost use Rattle.tern_cnf.specs.States.{ModelsAreStates};
ghost use Rattle.tern_cnf.specs.Grown.{with_clauses, AreMarks};

use crate::fault::EncodeFault;
use crate::question::Question;
use crate::rows::add_node;
use crate::writer::add;
use net_view::{Gate, View};
use sat_chain::Clauses;
use std::alloc::Global;

/// A gate of a view, over numbers.
fn numbered<V: View>(view: &V, gate: Gate<V::Node, V::Src>) -> Gate<u32, u32>
    requires { Reads (λ j. j < length (V.gates view.now)) (λ s. s < V.source_count view.now)
        (renumbered V.node_number V.source_number gate) }
    ensures { result ≡ renumbered V.node_number V.source_number gate }
{
    match gate {
        Gate::Const(bit) => Gate::Const(bit),
        Gate::Source(s) => Gate::Source(view.src_index(s)),
        Gate::Not(a) => Gate::Not(view.index(a)),
        Gate::And(a, b) => Gate::And(view.index(a), view.index(b)),
        Gate::Or(a, b) => Gate::Or(view.index(a), view.index(b)),
        Gate::Xor(a, b) => Gate::Xor(view.index(a), view.index(b)),
        Gate::Pick(pin, a, b) => Gate::Pick(view.index(pin), view.index(a), view.index(b)),
        Gate::Lift(pin, a, reset) => Gate::Lift(view.index(pin), view.index(a), reset),
    }
}

/// The gate of a number.
fn gate_at<V: View>(view: &V, n: u32) -> Gate<u32, u32>
    requires { n < length (V.gates view.now) }
    ensures at { IsGateAt (V.gates view.now) n result }
    ensures below { Reads (λ j. j < n) (λ s. ⊤) result }
{
    let _lawful = view.nodes();
    let Some(node) = view.node(n) else {
        unreachable!();
    };
    numbered(view, view.gate(node))
}

/// For each node whether it is listed.
fn marks_of(alloc: Global, nodes: u32, listed: &[u32]) -> Result<Vec<bool>, EncodeFault>
    requires { All (λ k. k < nodes) listed.now }
    ensures { IfOk result (λ marks. AreMarks marks.items listed.now nodes) }
{
    let Ok(mut marks) = vec![in alloc; false; nodes as usize] else {
        return Err(EncodeFault::Memory);
    };
    for k in listed {
        marks[*k as usize] = true;
    }
    Ok(marks)
}

/// The clauses of a view's nodes.
fn add_nodes<V: View>(
    alloc: Global,
    out: &mut Clauses,
    view: &V,
    fixed: &[u32],
) -> Result<(), EncodeFault>
    requires fixed { All (λ k. k < length (V.gates view.now)) fixed.now }
    requires room { 2 * length (V.gates view.now) ≤ out.old.vars }
    requires few { out.old.vars < 2 ^ 31 }
    ensures { OnOk result (out.new ≡ with_clauses out.old (clauses_from fixed.now 0 (V.gates view.now))) }
{
    let nodes = view.nodes();
    let marks = marks_of(alloc, nodes, fixed)?;
    'nodes: for n in 0..nodes {
        add_node(out, marks[n as usize], n, gate_at(view, n))?;
    }
    Ok(())
}

/// Further clauses, as they are.
fn add_all(out: &mut Clauses, side: &[Vec<i32>]) -> Result<(), EncodeFault>
    requires { CanBeAdded out.old.vars (map (λ c. c.items) side.now) }
    ensures { OnOk result (out.new ≡ with_clauses out.old (map (λ c. c.items) side.now)) }
{
    for clause in side {
        add(out, clause.as_slice())?;
    }
    Ok(())
}

/// The clauses of a question about a view: those of the nodes in their order, and then those of `side`.
pub fn encode<V: View>(alloc: Global, view: &V, question: &Question) -> Result<Clauses, EncodeFault>
    requires few { variables (V.gates view.now) question.now.extra < 2 ^ 31 }
    requires fixed { AreSources (V.gates view.now) question.now.fixed }
    requires side { CanBeAdded (variables (V.gates view.now) question.now.extra) question.now.side }
    ensures value { IfOk result (λ made. made ≡ record {
      vars = variables (V.gates view.now) question.now.extra;
      clauses = clauses_of (V.gates view.now) question.now.fixed question.now.side;
    }) }
    ensures models { IfOk result (λ made. ModelsAreStates (V.gates view.now) question.now.fixed question.now.side made.clauses) }
{
    let mut out = Clauses::new(alloc, 2 * view.nodes() + question.extra);
    add_nodes(alloc, &mut out, view, question.fixed.as_slice())?;
    add_all(&mut out, question.side.as_slice())?;
    Ok(out)
}
