//! Gates.
ghost use Rattle.std.specs.Prelude.{◌≡◌, ◌++◌, length, take, drop, OnOk};
ghost use Rattle.elab_bits.specs.Parts.{gate_drives, gate_reads, outputs};

use crate::readers::put_all_reads;
use crate::targets::{put_all_target_reads, put_all_targets};
use crate::touch::{Touch, put};
use design_form::{Design, GateUse};
use std::alloc::{AllocError, Global};
use vlog_tree::{Expr, GateKind};

/// How many of some terminals are outputs.
#[tactic(auto, unfolding(crate::specs::Parts::outputs))]
fn outputs(kind: GateKind, terminals: usize) -> usize
    ensures { result ≡ outputs kind terminals }
{
    match kind {
        GateKind::Not | GateKind::Buf => terminals.saturating_sub(1),
        GateKind::And
        | GateKind::Nand
        | GateKind::Or
        | GateKind::Nor
        | GateKind::Xor
        | GateKind::Xnor => 1,
    }
}

/// The output terminals of a gate.
fn output_terminals(gate: &GateUse) -> &[Expr]
    ensures { result.now ≡ take (outputs gate.now.kind (length gate.now.terminals)) gate.now.terminals }
{
    let all = gate.terminals.as_slice();
    let count = outputs(gate.kind, all.len());
    if all.len() <= count {
        return all;
    }
    let (outputs, _) = all.split_at(count);
    outputs
}

/// The input terminals of a gate.
fn input_terminals(gate: &GateUse) -> &[Expr]
    ensures { result.now ≡ drop (outputs gate.now.kind (length gate.now.terminals)) gate.now.terminals }
{
    let all = gate.terminals.as_slice();
    let count = outputs(gate.kind, all.len());
    if all.len() <= count {
        return &[];
    }
    let (_, inputs) = all.split_at(count);
    inputs
}

/// What a gate drives, behind what is there: the bits of its output terminals, at its place.
///
/// # Errors
/// Want of memory.
#[tactic(auto, unfolding(crate::specs::Parts::gate_drives))]
pub fn drives_of_gate(
    alloc: Global,
    design: &Design,
    gate: &GateUse,
    touches: &mut Vec<Touch>,
) -> Result<(), AllocError>
    ensures { OnOk result (touches.new.items ≡ touches.old.items ++ gate_drives design.now.signals gate.now) }
{
    let mut bits = Vec::new(alloc);
    put_all_targets(alloc, design, output_terminals(gate), &mut bits)?;
    put(touches, gate.place, &bits)
}

/// What a gate reads, behind what is there: in the indices of its output terminals, and in its input terminals.
///
/// # Errors
/// Want of memory.
#[tactic(auto, using(std::proofs::lemmas::List::append_assoc), unfolding(crate::specs::Parts::gate_reads))]
pub fn reads_of_gate(
    alloc: Global,
    design: &Design,
    gate: &GateUse,
    touches: &mut Vec<Touch>,
) -> Result<(), AllocError>
    ensures { OnOk result (touches.new.items ≡ touches.old.items ++ gate_reads design.now.signals gate.now) }
{
    put_all_target_reads(alloc, design, output_terminals(gate), touches)?;
    put_all_reads(alloc, design, input_terminals(gate), touches)
}
