//! Bodies of processes, statement by statement.
ghost use Rattle.std.specs.Prelude.{◌≡◌, ◌<◌, ◌≤◌, length, map, Option, None, Some, IfOk, OnOk};
ghost use Rattle.std.specs.Option.{option_map};
ghost use Rattle.design_form.specs.Extents.{shape_of};
ghost use Rattle.design_sizes.specs.Sizes.{case_shape};
ghost use Rattle.proc_cases.specs.Full.{is_full, labels_of};
ghost use Rattle.proc_values.specs.Runs.{Run, chosen, values_of};
ghost use Rattle.proc_values.specs.Cases.{body_at, case_run, with_body};
ghost use Rattle.proc_values.specs.Covers.{CoversAll};
ghost use Rattle.proc_values.specs.Labels.{any_hit};
ghost use Rattle.proc_values.specs.Bodies.{branch, cases, in_order, run, side, worth};
ghost use Rattle.proc_values.specs.Marks.{IsReady, IsSide, Runs};

use crate::cases::{Choice, choice_of, is_at, labels_at, standing, test_of};
use crate::changes::{gathered, marked};
use crate::labels::any_hit;
use crate::sides::{Side, keep, mixed_sides, put_side, settle, side_of};
use crate::writes::assign;
use design_form::{Design, EvalFault};
use proc_cases::is_full;
use rdc_tern::Tern;
use sqlite_items::Boxed;
use std::alloc::Global;
use vlog_tree::{Arm, Expr, Matching, Stmt};

/// What a statement makes of the states, which become that.
///
/// # Errors
/// Want of memory.
#[cycle(running)]
#[tactic(auto, using(crate::proofs::BodyForms::forms))]
fn run(
    alloc: Global,
    design: &Design,
    reads: &[u32],
    bits: &[u32],
    read_marks: &[bool],
    marks: &[bool],
    s: &Stmt,
    now: &mut [Tern],
    next: &mut [Tern],
) -> Result<(), EvalFault>
    requires { IsReady reads.now bits.now read_marks.now marks.now now.old next.old }
    ensures { OnOk result (Runs reads.now bits.now (run design.now reads.now bits.now s.now) now.old next.old now.new next.new) }
{
    match s {
        Stmt::Empty(_) => Ok(()),
        Stmt::Block(_, _, inner) => {
            run_all(
                alloc,
                design,
                reads,
                bits,
                read_marks,
                marks,
                inner.as_slice(),
                now,
                next,
            )
        }
        Stmt::Assign(_, target, by, value) => {
            assign(
                alloc, design, reads, bits, read_marks, marks, target, *by, value, now, next,
            )
        }
        Stmt::If(_, test, first, other) => {
            let hit = test_of(alloc, design, test, now)?;
            let first = tried(
                alloc,
                design,
                reads,
                bits,
                read_marks,
                marks,
                first.get(),
                now,
                next,
            )?;
            match other {
                None => keep(alloc, reads, bits, hit, &first, now, next),
                Some(other) => {
                    choose(
                        alloc,
                        design,
                        reads,
                        bits,
                        read_marks,
                        marks,
                        hit,
                        &first,
                        other.get(),
                        now,
                        next,
                    )
                }
            }
        }
        Stmt::Case(_, how, selector, arms) => {
            let arms = arms.as_slice();
            let at = standing(is_full(alloc, design, *how, selector, arms)?, arms);
            let choice = choice_of(alloc, design, *how, selector, arms, now)?;
            run_case(
                alloc, design, reads, bits, read_marks, marks, &choice, at, arms, now, next,
            )
        }
        Stmt::For(_, _, body) => run(
            alloc,
            design,
            reads,
            bits,
            read_marks,
            marks,
            body.get(),
            now,
            next,
        ),
    }
}

/// Statements, one after the other.
#[cycle(running)]
fn run_all(
    alloc: Global,
    design: &Design,
    reads: &[u32],
    bits: &[u32],
    read_marks: &[bool],
    marks: &[bool],
    ss: &[Stmt],
    now: &mut [Tern],
    next: &mut [Tern],
) -> Result<(), EvalFault>
    requires { IsReady reads.now bits.now read_marks.now marks.now now.old next.old }
    ensures { OnOk result (Runs reads.now bits.now (in_order (map (run design.now reads.now bits.now) ss.now)) now.old next.old now.new next.new) }
{
    for i in 0..ss.len() {
        match run(
            alloc, design, reads, bits, read_marks, marks, &ss[i], now, next,
        ) {
            Ok(()) => {}
            Err(fault) => return Err(fault),
        }
    }
    Ok(())
}

/// What a statement leaves at the bits. The states are as they were.
#[cycle(running)]
fn tried(
    alloc: Global,
    design: &Design,
    reads: &[u32],
    bits: &[u32],
    read_marks: &[bool],
    marks: &[bool],
    s: &Stmt,
    now: &mut [Tern],
    next: &mut [Tern],
) -> Result<Side, EvalFault>
    requires { IsReady reads.now bits.now read_marks.now marks.now now.old next.old }
    ensures now { OnOk result (now.new ≡ now.old) }
    ensures next { OnOk result (next.new ≡ next.old) }
    ensures side { IfOk result (λ out. IsSide reads.now bits.now (record { now = now.old; next = next.old }) (run design.now reads.now bits.now s.now (record { now = now.old; next = next.old })) out.seen.items out.becomes.items) }
{
    let before = side_of(alloc, reads, bits, now, next)?;
    match run(alloc, design, reads, bits, read_marks, marks, s, now, next) {
        Ok(()) => {}
        Err(fault) => return Err(fault),
    }
    let after = side_of(alloc, reads, bits, now, next)?;
    put_side(reads, bits, &before, now, next);
    Ok(after)
}

/// The second side of a choice, behind what the first one leaves.
#[cycle(running)]
fn choose(
    alloc: Global,
    design: &Design,
    reads: &[u32],
    bits: &[u32],
    read_marks: &[bool],
    marks: &[bool],
    select: Tern,
    first: &Side,
    other: &Stmt,
    now: &mut [Tern],
    next: &mut [Tern],
) -> Result<(), EvalFault>
    requires ready { IsReady reads.now bits.now read_marks.now marks.now now.old next.old }
    requires first_seen { length first.now.seen.items ≡ length reads.now }
    requires first_becomes { length first.now.becomes.items ≡ length bits.now }
    ensures { (one : Run) → IsSide reads.now bits.now (record { now = now.old; next = next.old }) one first.now.seen.items first.now.becomes.items
        → OnOk result (Runs reads.now bits.now (λ r. chosen reads.now bits.now select one (run design.now reads.now bits.now other.now r)) now.old next.old now.new next.new) }
{
    let second = match tried(
        alloc, design, reads, bits, read_marks, marks, other, now, next,
    ) {
        Ok(side) => side,
        Err(fault) => return Err(fault),
    };
    settle(alloc, reads, bits, select, first, &second, now, next)
}

/// What the item that stands for the default leaves. The states are as they were.
#[cycle(running)]
#[tactic(auto, unfolding(crate::specs::Cases::body_at, crate::specs::Cases::body_in))]
fn tried_standing(
    alloc: Global,
    design: &Design,
    reads: &[u32],
    bits: &[u32],
    read_marks: &[bool],
    marks: &[bool],
    at: Option<usize>,
    arms: &[Arm<Boxed<Stmt>>],
    now: &mut [Tern],
    next: &mut [Tern],
) -> Result<Side, EvalFault>
    requires { IsReady reads.now bits.now read_marks.now marks.now now.old next.old }
    ensures now { OnOk result (now.new ≡ now.old) }
    ensures next { OnOk result (next.new ≡ next.old) }
    ensures side { IfOk result (λ out. IsSide reads.now bits.now (record { now = now.old; next = next.old }) (body_at at (map (with_body (run design.now reads.now bits.now)) arms.now) (record { now = now.old; next = next.old })) out.seen.items out.becomes.items) }
{
    match at {
        None => side_of(alloc, reads, bits, now, next),
        Some(i) => {
            if arms.len() <= i {
                return side_of(alloc, reads, bits, now, next);
            }
            tried(
                alloc,
                design,
                reads,
                bits,
                read_marks,
                marks,
                arms[i].body.get(),
                now,
                next,
            )
        }
    }
}

/// What an item leaves before what comes behind it. The states are as they were.
#[cycle(running)]
fn tried_item(
    alloc: Global,
    design: &Design,
    reads: &[u32],
    bits: &[u32],
    read_marks: &[bool],
    marks: &[bool],
    choice: &Choice,
    body: &Stmt,
    labels: &[Expr],
    rest: &Side,
    now: &mut [Tern],
    next: &mut [Tern],
) -> Result<Side, EvalFault>
    requires ready { IsReady reads.now bits.now read_marks.now marks.now now.old next.old }
    requires seen { length rest.now.seen.items ≡ length reads.now }
    requires becomes { length rest.now.becomes.items ≡ length bits.now }
    requires covers { CoversAll design.now (shape_of choice.now.context) labels.now }
    ensures now { OnOk result (now.new ≡ now.old) }
    ensures next { OnOk result (next.new ≡ next.old) }
    ensures side { (other : Run) → IsSide reads.now bits.now (record { now = now.old; next = next.old }) other rest.now.seen.items rest.now.becomes.items →
        IfOk result (λ out. IsSide reads.now bits.now (record { now = now.old; next = next.old })
        (chosen reads.now bits.now (any_hit design.now now.old choice.now.how (shape_of choice.now.context) choice.now.word.items labels.now) (run design.now reads.now bits.now body.now (record { now = now.old; next = next.old })) other)
        out.seen.items out.becomes.items) }
{
    let Choice { how, context, word } = choice;
    let hit = any_hit(alloc, design, now, *how, *context, word.as_slice(), labels)?;
    let side = match tried(
        alloc, design, reads, bits, read_marks, marks, body, now, next,
    ) {
        Ok(side) => side,
        Err(fault) => return Err(fault),
    };
    mixed_sides(alloc, hit, &side, rest)
}

/// What all items leave, the last one first. The states are as they were.
#[cycle(running)]
fn tried_items(
    alloc: Global,
    design: &Design,
    reads: &[u32],
    bits: &[u32],
    read_marks: &[bool],
    marks: &[bool],
    choice: &Choice,
    at: Option<usize>,
    arms: &[Arm<Boxed<Stmt>>],
    now: &mut [Tern],
    next: &mut [Tern],
) -> Result<Side, EvalFault>
    requires ready { IsReady reads.now bits.now read_marks.now marks.now now.old next.old }
    requires covers { CoversAll design.now (shape_of choice.now.context) (labels_of arms.now) }
    ensures now { OnOk result (now.new ≡ now.old) }
    ensures next { OnOk result (next.new ≡ next.old) }
    ensures side { IfOk result (λ out. IsSide reads.now bits.now (record { now = now.old; next = next.old })
        (case_run reads.now bits.now (any_hit design.now now.old choice.now.how (shape_of choice.now.context) choice.now.word.items) at (map (with_body (run design.now reads.now bits.now)) arms.now) (record { now = now.old; next = next.old }))
        out.seen.items out.becomes.items) }
{
    let mut side = match tried_standing(
        alloc, design, reads, bits, read_marks, marks, at, arms, now, next,
    ) {
        Ok(side) => side,
        Err(fault) => return Err(fault),
    };
    let mut left = arms.len();
    while 0 < left {
        left -= 1;
        let labels = labels_at(design, choice.context, arms, left);
        let body = arms[left].body.get();
        if !is_at(at, left) {
            side = match tried_item(
                alloc, design, reads, bits, read_marks, marks, choice, body, labels, &side, now,
                next,
            ) {
                Ok(side) => side,
                Err(fault) => return Err(fault),
            };
        }
    }
    Ok(side)
}

/// The items of a `case`.
#[cycle(running)]
fn run_case(
    alloc: Global,
    design: &Design,
    reads: &[u32],
    bits: &[u32],
    read_marks: &[bool],
    marks: &[bool],
    choice: &Choice,
    at: Option<usize>,
    arms: &[Arm<Boxed<Stmt>>],
    now: &mut [Tern],
    next: &mut [Tern],
) -> Result<(), EvalFault>
    requires ready { IsReady reads.now bits.now read_marks.now marks.now now.old next.old }
    requires covers { CoversAll design.now (shape_of choice.now.context) (labels_of arms.now) }
    ensures { OnOk result (Runs reads.now bits.now (λ r. case_run reads.now bits.now (any_hit design.now r.now choice.now.how (shape_of choice.now.context) choice.now.word.items) at (map (with_body (run design.now reads.now bits.now)) arms.now) r) now.old next.old now.new next.new) }
{
    let side = match tried_items(
        alloc, design, reads, bits, read_marks, marks, choice, at, arms, now, next,
    ) {
        Ok(side) => side,
        Err(fault) => return Err(fault),
    };
    put_side(reads, bits, &side, now, next);
    Ok(())
}

/// What the bits become of a state: what the body of the process that assigns them makes of it, in the order of the bits.
/// Later reads see what is assigned to `reads`: `bits` again for a process without edges; for one with edges the bits of the
/// variables of its loops, or none where nothing reads one behind its loop.
/// A body has no loops; one would be its body, run once.
///
/// # Errors
/// Want of memory.
pub fn run_body(
    alloc: Global,
    design: &Design,
    reads: &[u32],
    bits: &[u32],
    body: &Stmt,
    state: &[Tern],
) -> Result<Vec<Tern>, EvalFault>
    ensures { IfOk result (λ w. w.items ≡ worth design.now reads.now bits.now body.now state.now) }
{
    let read_marks = marked(alloc, reads, state.len())?;
    let marks = marked(alloc, bits, state.len())?;
    let mut now = state.to_vec(alloc)?;
    let mut next = state.to_vec(alloc)?;
    run(
        alloc,
        design,
        reads,
        bits,
        read_marks.as_slice(),
        marks.as_slice(),
        body,
        &mut now,
        &mut next,
    )?;
    gathered(alloc, bits, next.as_slice())
}
