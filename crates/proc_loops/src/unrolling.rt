//! Bodies without loops.
ghost use Rattle.std.specs.Prelude.{[]};
ghost use Rattle.vlog_tree.specs.declared.stmt.Stmt as tree;
ghost use Rattle.proc_loops.specs.declared.progress.Progress as progress;
ghost use Rattle.vlog_const.specs.Names.{values_of};
ghost use Rattle.proc_loops.specs.Faults.{Answers, Or_fault};
ghost use Rattle.proc_loops.specs.Headers.{running};
ghost use Rattle.proc_loops.specs.Turns.{most_turns, turn, turns, unroll_loop};
ghost use Rattle.proc_loops.specs.Unrolled.{arm_in, each, sides, unroll, unrolled};

use crate::fault::LoopFault;
use crate::header_values::{first_width, given, stepped, tested};
use crate::headers::{integer, unknown};
use crate::pieces::{
    Sides, assignment, block, both, boxed, case, case_item, choice, ended, made, pushed,
};
use crate::progress::{Progress, begun, counted, cut, is_full, most_turns, one_more};
use crate::putting::{all_put_in, put_in};
use crate::scope::Scope;
use crate::turn::{Turn, Unrolled};
use rdc_outside::Place;
use sqlite_items::{Boxed, Items};
use std::alloc::Global;
use vlog_const::{ConstFault, ConstValue};
use vlog_tree::{Arm, Loop, Stmt};

/// A statement without loops.
#[cycle(unrolling)]
#[tactic(auto, using(crate::proofs::UnrollForms::forms), unfolding(crate::specs::Faults::and_then))]
fn statement(
    alloc: Global,
    s: &Stmt,
    scope: &Scope,
    p: Progress,
) -> Result<(Stmt, Progress), LoopFault>
    ensures { Answers result (unroll s.now (values_of scope.now.env) p) }
{
    match s {
        Stmt::Empty(place) => Ok((Stmt::Empty(*place), p)),
        Stmt::Block(place, label, ss) => {
            let ss = each(alloc, ss.as_slice(), scope, p);
            block(alloc, *place, label, ss)
        }
        Stmt::Assign(place, target, by, value) => {
            assignment(alloc, *place, target, *by, value, scope, p)
        }
        Stmt::If(place, test, first, other) => {
            let test = put_in(alloc, test, scope);
            let first = boxed(alloc, statement(alloc, first.get(), scope, p));
            let sides = side(alloc, other, scope, first);
            choice(*place, test, sides)
        }
        Stmt::Case(place, how, selector, arms) => {
            let selector = put_in(alloc, selector, scope);
            let arms = each_arm(alloc, arms.as_slice(), scope, p);
            case(*place, *how, selector, arms)
        }
        Stmt::For(place, header, body) => {
            unroll_loop(alloc, body.get(), *place, header, scope, p)
        }
    }
}

/// An else side behind the other one, up to a cut.
#[cycle(unrolling)]
#[tactic(auto, unfolding(crate::specs::Unrolled::other_side, crate::specs::Faults::and_then))]
fn side(
    alloc: Global,
    other: &Option<Boxed<Stmt>>,
    scope: &Scope,
    first: Result<(Boxed<Stmt>, Progress), LoopFault>,
) -> Result<Sides, LoopFault>
    ensures { (r : Or_fault (tree.Stmt × progress.Progress)) → Answers first r → Answers result (sides unroll other.now (values_of scope.now.env) r) }
{
    let (first, p) = first?;
    match other {
        None => Ok(Sides {
            first,
            other: None,
            then: p,
        }),
        Some(other) => {
            if p.is_cut {
                return Ok(Sides {
                    first,
                    other: None,
                    then: p,
                });
            }
            let other = boxed(alloc, statement(alloc, other.get(), scope, p));
            both(first, other)
        }
    }
}

/// Statements, up to a cut.
#[cycle(unrolling)]
#[tactic(auto, unfolding(crate::specs::Unrolled::each, crate::specs::Faults::and_then))]
fn each(
    alloc: Global,
    ss: &[Stmt],
    scope: &Scope,
    p: Progress,
) -> Result<(Items<Stmt>, Progress), LoopFault>
    ensures { Answers result (each unroll [] ss.now (values_of scope.now.env) p) }
{
    let mut done = Items::new(alloc);
    let mut p = p;
    for s in ss {
        if p.is_cut {
            return Ok((done, p));
        }
        let (s, q) = match statement(alloc, s, scope, p) {
            Ok(step) => step,
            Err(fault) => return Err(fault),
        };
        match done.push(s) {
            Ok(()) => {}
            Err(_) => return Err(LoopFault::Memory),
        }
        p = q;
    }
    Ok((done, p))
}

/// Case items, up to a cut.
#[cycle(unrolling)]
#[tactic(auto, unfolding(crate::specs::Unrolled::each, crate::specs::Faults::and_then))]
fn each_arm(
    alloc: Global,
    arms: &[Arm<Boxed<Stmt>>],
    scope: &Scope,
    p: Progress,
) -> Result<(Items<Arm<Boxed<Stmt>>>, Progress), LoopFault>
    ensures { Answers result (each (arm_in unroll) [] arms.now (values_of scope.now.env) p) }
{
    let mut done = Items::new(alloc);
    let mut p = p;
    for arm in arms {
        if p.is_cut {
            return Ok((done, p));
        }
        let labels = all_put_in(alloc, arm.labels.as_slice(), scope);
        let body = boxed(alloc, statement(alloc, arm.body.get(), scope, p));
        let (arm, q) = match case_item(arm.place, labels, body) {
            Ok(step) => step,
            Err(fault) => return Err(fault),
        };
        match done.push(arm) {
            Ok(()) => {}
            Err(_) => return Err(LoopFault::Memory),
        }
        p = q;
    }
    Ok((done, p))
}

/// A loop as a block of its turns.
#[cycle(unrolling)]
#[tactic(auto, unfolding(crate::specs::Turns::unroll_loop, crate::specs::Faults::and_then))]
fn unroll_loop(
    alloc: Global,
    body: &Stmt,
    place: Place,
    header: &Loop,
    scope: &Scope,
    p: Progress,
) -> Result<(Stmt, Progress), LoopFault>
    ensures { Answers result (unroll_loop place header.now body.now (unroll body.now) (values_of scope.now.env) p) }
{
    let start = given(alloc, header.start.get(), scope)?;
    let first = integer(start.bits);
    let width = first_width(alloc, body, header, scope, start)?;
    let (done, p) = turns(alloc, body, header, scope, first, counted(width, p))?;
    Ok((Stmt::Block(place, None, done), p))
}

/// The turns of a loop.
#[cycle(unrolling)]
fn turns(
    alloc: Global,
    body: &Stmt,
    header: &Loop,
    scope: &Scope,
    first: ConstValue,
    p: Progress,
) -> Result<(Items<Stmt>, Progress), LoopFault>
    ensures { Answers result (turns most_turns header.now (running (values_of scope.now.env) header.now body.now) (unroll body.now) first [] p) }
{
    let mut done = Items::new(alloc);
    let mut p = p;
    let mut v = first;
    let mut left = most_turns();
    while 0 < left {
        left -= 1;
        let next = match turn(alloc, body, header, scope, v, p) {
            Ok(next) => next,
            Err(fault) => return Err(fault),
        };
        match next {
            Turn::Ended => return ended(alloc, done, header, v, p),
            Turn::Full => return Ok((done, cut(p))),
            Turn::Cut(s, q) => return pushed(done, s, q),
            Turn::Made(s, w, q) => {
                match done.push(s) {
                    Ok(()) => {}
                    Err(_) => return Err(LoopFault::Memory),
                }
                v = w;
                p = q;
            }
        }
    }
    Ok((done, cut(p)))
}

/// One turn of a loop.
#[cycle(unrolling)]
fn turn(
    alloc: Global,
    body: &Stmt,
    header: &Loop,
    scope: &Scope,
    v: ConstValue,
    p: Progress,
) -> Result<Turn, LoopFault>
    ensures { Answers result (turn header.now (running (values_of scope.now.env) header.now body.now v) (unroll body.now) v p) }
{
    let inside = scope.running(alloc, header, body, v)?;
    turn_inside(alloc, body, header, &inside, v, p)
}

/// The same, where the variable has its value already.
#[cycle(unrolling)]
#[tactic(auto, unfolding(crate::specs::Turns::turn, crate::specs::Faults::and_then))]
fn turn_inside(
    alloc: Global,
    body: &Stmt,
    header: &Loop,
    inside: &Scope,
    v: ConstValue,
    p: Progress,
) -> Result<Turn, LoopFault>
    ensures { Answers result (turn header.now (values_of inside.now.env) (unroll body.now) v p) }
{
    let test = tested(alloc, header.test.get(), inside)?;
    if test.bits == 0 {
        return Ok(Turn::Ended);
    }
    if is_full(p) {
        return Ok(Turn::Full);
    }
    let (s, q) = statement(alloc, body, inside, one_more(p))?;
    if q.is_cut {
        return Ok(Turn::Cut(s, q));
    }
    let w = given(alloc, header.step.get(), inside);
    made(header, v, s, q, w)
}

/// The body of a process without loops: each loop is a block of the bodies of its turns, with a number in the place of each
/// running variable, and ends with the value that its variable ends with.
///
/// All sides of `if` and `case` are kept. The variable of a loop is an integer, and runs in the test, the step and the body
/// unless the body assigns it.
///
/// # Errors
/// `Const(NotConstant)` where a header names something that is no running variable of a loop around it or, in the test and
/// the step, of its own, also in a loop that makes no turn: at the first such name. Else the fault of the first start, test
/// or step that has no value, or `NotBuilt` at a select of a running variable by an index that is not constant.
#[tactic(auto, unfolding(crate::specs::Unrolled::unrolled, crate::specs::Unrolled::unrolled_if, crate::specs::Faults::and_then))]
pub fn unrolled(alloc: Global, body: &Stmt) -> Result<Unrolled, LoopFault>
    ensures { Answers result (unrolled body.now) }
{
    let scope = Scope::new(alloc);
    if let Some(place) = unknown(alloc, body, &scope)? {
        return Err(LoopFault::Const(ConstFault::NotConstant(place)));
    }
    let (body, p) = statement(alloc, body, &scope, begun())?;
    Ok(Unrolled {
        body,
        turns: p.turns,
        headers: p.headers,
        is_cut: p.is_cut,
    })
}
