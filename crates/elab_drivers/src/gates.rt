//! Gates.
ghost use Rattle.std.specs.Prelude.{◌≡◌, ◌≤◌, OnOk, map, length};
ghost use Rattle.elab_drivers.specs.Drafts.{draft_of, with_gate};
ghost use Rattle.elab_drivers.specs.Drivers.{gated, outputs, terminals};
ghost use Rattle.elab_drivers.specs.Targets.{assigned};
ghost use Rattle.elab_names.specs.Answers.{Answers, gathered};
ghost use Rattle.elab_names.specs.Expressions.{put_in};
ghost use Rattle.elab_names.specs.Meanings.{frames_of};
ghost use Rattle.elab_scopes.specs.Tables.{Changes};
ghost use Rattle.elab_scopes.specs.Threads.{threaded};

use crate::draft::Draft;
use crate::targets::assigned;
use design_form::GateUse;
use elab_names::{ElabFault, Scope, put_in};
use sqlite_items::Items;
use std::alloc::{AllocError, Global};
use vlog_tree::{Expr, Gate, GateKind};

/// How many of some terminals are outputs.
#[tactic(auto, unfolding(crate::specs::Drivers::outputs))]
fn outputs(kind: GateKind, terminals: usize) -> usize
    requires { 2 ≤ terminals }
    ensures value { result ≡ outputs kind terminals }
    ensures bound { result ≤ terminals }
{
    match kind {
        GateKind::Not | GateKind::Buf => terminals - 1,
        _ => 1,
    }
}

/// Outputs, behind what is there.
#[tactic(auto, using(elab_names::proofs::Lists::gathers))]
fn outputs_in(alloc: Global, terminals: &[Expr], scope: &Scope) -> Result<Items<Expr>, ElabFault>
    ensures { Answers (λ es. es) result (gathered (map (assigned (frames_of scope.now)) terminals.now)) }
{
    let mut out = Items::from_vec(Vec::with_capacity(alloc, terminals.len())?);
    for terminal in terminals {
        match assigned(alloc, terminal, scope) {
            Ok(terminal) => match out.push(terminal) {
                Ok(()) => {}
                Err(_) => return Err(ElabFault::Memory),
            },
            Err(fault) => return Err(fault),
        }
    }
    Ok(out)
}

/// Inputs.
#[tactic(auto, using(elab_names::proofs::Lists::gathers))]
fn inputs_in(alloc: Global, terminals: &[Expr], scope: &Scope) -> Result<Items<Expr>, ElabFault>
    ensures { Answers (λ es. es) result (gathered (map (put_in (frames_of scope.now)) terminals.now)) }
{
    let mut out = Items::from_vec(Vec::with_capacity(alloc, terminals.len())?);
    for terminal in terminals {
        match put_in(alloc, terminal, scope) {
            Ok(terminal) => match out.push(terminal) {
                Ok(()) => {}
                Err(_) => return Err(ElabFault::Memory),
            },
            Err(fault) => return Err(fault),
        }
    }
    Ok(out)
}

/// The terminals of a gate, so many outputs first.
#[tactic(auto, unfolding(crate::specs::Drivers::terminals, elab_names::specs::Answers::and_then))]
fn terminals(
    alloc: Global,
    outputs: usize,
    all: &[Expr],
    scope: &Scope,
) -> Result<Items<Expr>, ElabFault>
    requires { outputs ≤ length all.now }
    ensures { Answers (λ es. es) result (terminals (frames_of scope.now) outputs all.now) }
{
    let (outputs, inputs) = all.split_at(outputs);
    let mut out = outputs_in(alloc, outputs, scope)?;
    let inputs = inputs_in(alloc, inputs, scope)?;
    out.append(inputs)?;
    Ok(out)
}

impl Draft {
    /// One more gate.
    fn place_gate(&mut self, gate: GateUse) -> Result<(), AllocError>
        ensures { OnOk result (draft_of self.new ≡ with_gate (draft_of self.old) gate) }
    {
        self.gates.push(gate)?;
        Ok(())
    }
}

/// A gate.
#[tactic(auto, unfolding(crate::specs::Drivers::gated, elab_names::specs::Answers::and_then))]
fn gate(alloc: Global, d: &mut Draft, kind: GateKind, gate: &Gate) -> Result<(), ElabFault>
    ensures { Changes result (draft_of d.new) (gated kind (draft_of d.old) gate.now) }
{
    let all = gate.terminals.as_slice();
    if all.len() < 2 {
        return Err(ElabFault::PortCount(gate.place));
    }
    let terminals = terminals(alloc, outputs(kind, all.len()), all, &d.drawing.scope)?;
    d.place_gate(GateUse {
        place: gate.place,
        kind,
        terminals,
    })?;
    Ok(())
}

/// Gates of one kind.
///
/// # Errors
/// Of the first that has one: `PortCount` at a gate with fewer than two terminals, what `assigned` answers of an output, and
/// `put_in` of an input.
pub fn gate_all(
    alloc: Global,
    d: &mut Draft,
    kind: GateKind,
    gates: &[Gate],
) -> Result<(), ElabFault>
    ensures { Changes result (draft_of d.new) (threaded (gated kind) (draft_of d.old) gates.now) }
{
    for one in gates {
        match gate(alloc, d, kind, one) {
            Ok(()) => {}
            Err(fault) => return Err(fault),
        }
    }
    Ok(())
}
