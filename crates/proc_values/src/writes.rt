//! Assignments.
ghost use Rattle.std.specs.Prelude.{◌≡◌, IfOk, OnOk};
ghost use Rattle.proc_values.specs.Targets.{strokes};
ghost use Rattle.proc_values.specs.Bodies.{assign, value_for, written};
ghost use Rattle.proc_values.specs.Marks.{IsReady, Runs};

use crate::changes::strike_all;
use crate::stroke::Stroke;
use crate::targets::{put_strokes, width_of};
use design_form::{Design, EvalFault, eval_within};
use rdc_tern::Tern;
use std::alloc::Global;
use vlog_tree::{Assigns, Expr};

/// What an assignment writes.
fn strokes_of(
    alloc: Global,
    design: &Design,
    target: &Expr,
    value: &Expr,
    now: &[Tern],
) -> Result<Vec<Stroke>, EvalFault>
    ensures { IfOk result (λ ks. ks.items ≡ strokes design.now now.now target.now (value_for design.now now.now target.now value.now)) }
{
    let width = width_of(alloc, design, target)?;
    let word = eval_within(alloc, design, value, now, width)?;
    let mut out = Vec::new(alloc);
    put_strokes(alloc, design, now, target, word.as_slice(), &mut out)?;
    Ok(out)
}

/// Strokes on what each bit becomes, and on what reads see where the assignment is blocking.
#[tactic(auto, unfolding(crate::specs::Bodies::written))]
fn write(
    reads: &[u32],
    bits: &[u32],
    read_marks: &[bool],
    marks: &[bool],
    strokes: &[Stroke],
    by: Assigns,
    now: &mut [Tern],
    next: &mut [Tern],
)
    requires { IsReady reads.now bits.now read_marks.now marks.now now.old next.old }
    ensures { Runs reads.now bits.now (written reads.now bits.now by strokes.now) now.old next.old now.new next.new }
{
    strike_all(bits, marks, strokes, next);
    match by {
        Assigns::Blocking => strike_all(reads, read_marks, strokes, now),
        Assigns::Nonblocking => {}
    }
}

/// An assignment.
pub(crate) fn assign(
    alloc: Global,
    design: &Design,
    reads: &[u32],
    bits: &[u32],
    read_marks: &[bool],
    marks: &[bool],
    target: &Expr,
    by: Assigns,
    value: &Expr,
    now: &mut [Tern],
    next: &mut [Tern],
) -> Result<(), EvalFault>
    requires { IsReady reads.now bits.now read_marks.now marks.now now.old next.old }
    ensures { OnOk result (Runs reads.now bits.now (assign design.now reads.now bits.now target.now by value.now) now.old next.old now.new next.new) }
{
    let strokes = strokes_of(alloc, design, target, value, now)?;
    write(
        reads,
        bits,
        read_marks,
        marks,
        strokes.as_slice(),
        by,
        now,
        next,
    );
    Ok(())
}
