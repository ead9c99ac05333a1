//! Processes.
ghost use Rattle.std.specs.Prelude.{◌≡◌, ◌++◌, IfOk, OnOk};
ghost use Rattle.elab_bits.specs.Touches.{once};
ghost use Rattle.elab_bits.specs.Bodies.{assigned};
ghost use Rattle.elab_bits.specs.Processes.{counters, driving, process_drives, process_reads};

use crate::bodies::{put_assigned, put_body_reads};
use crate::events::{has_edges, put_control};
use crate::inputs::Inputs;
use crate::sets::{listed, put_others, set_of};
use crate::touch::{Touch, put};
use design_form::{Design, Process};
use proc_loops::Unrolled;
use std::alloc::{AllocError, Global};
use std::collections::BTreeSet;
use vlog_tree::{Assigns, Control, Stmt};

/// Which assignments drive.
#[tactic(auto, unfolding(crate::specs::Processes::driving))]
fn driving(control: &Control) -> Option<Assigns>
    ensures { result ≡ driving control.now }
{
    if has_edges(control) {
        Some(Assigns::Nonblocking)
    } else {
        None
    }
}

/// The bits that a body assigns by assignments of a kind.
fn assigned_set(
    alloc: Global,
    design: &Design,
    body: &Stmt,
    kind: Option<Assigns>,
) -> Result<BTreeSet<u32>, AllocError>
    ensures { IfOk result (λ set. set.keys ≡ once (assigned design.now.signals kind body.now)) }
{
    let mut bits = Vec::new(alloc);
    put_assigned(alloc, design, body, kind, &mut bits)?;
    set_of(alloc, &bits)
}

/// The bits of the variables of loops in a process with edges.
#[tactic(auto, unfolding(crate::specs::Processes::counters))]
fn counters(
    alloc: Global,
    design: &Design,
    control: &Control,
    body: &Stmt,
) -> Result<BTreeSet<u32>, AllocError>
    ensures { IfOk result (λ set. set.keys ≡ counters design.now.signals control.now body.now) }
{
    if has_edges(control) {
        return assigned_set(alloc, design, body, Some(Assigns::Blocking));
    }
    Ok(BTreeSet::new(alloc))
}

/// What a process drives, behind what is there: each bit once, at its place. `unrolled` is its body without loops.
///
/// # Errors
/// Want of memory.
#[tactic(auto, unfolding(crate::specs::Processes::process_drives))]
pub fn drives_of_process(
    alloc: Global,
    design: &Design,
    inputs: &Inputs,
    process: &Process,
    unrolled: &Unrolled,
    touches: &mut Vec<Touch>,
) -> Result<(), AllocError>
    ensures { OnOk result (touches.new.items ≡ touches.old.items ++ process_drives design.now.signals inputs.now process.now unrolled.now.body) }
{
    let kind = driving(&process.control);
    let assigned = assigned_set(alloc, design, &unrolled.body, kind)?;
    let bits = listed(alloc, assigned)?;
    let mut all = Vec::new(alloc);
    put(&mut all, process.place, &bits)?;
    put_others(inputs.set(), &all, touches)
}

/// What a process reads, behind what is there: the edges that it waits for, and then its body. `unrolled` is its body without
/// loops.
///
/// # Errors
/// Want of memory.
#[tactic(auto, unfolding(crate::specs::Processes::process_reads))]
pub fn reads_of_process(
    alloc: Global,
    design: &Design,
    process: &Process,
    unrolled: &Unrolled,
    touches: &mut Vec<Touch>,
) -> Result<(), AllocError>
    ensures { OnOk result (touches.new.items ≡ touches.old.items ++ process_reads design.now.signals process.now unrolled.now.body) }
{
    let counters = counters(alloc, design, &process.control, &unrolled.body)?;
    let mut all = Vec::new(alloc);
    put_control(alloc, design, &process.control, &mut all)?;
    put_body_reads(alloc, design, &unrolled.body, &mut all)?;
    put_others(&counters, &all, touches)
}
