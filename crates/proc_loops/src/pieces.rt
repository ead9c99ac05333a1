//! Parts of a statement without loops.
ghost use Rattle.std.specs.Prelude.{◌≡◌, List, [], ◌∷◌, ◌++◌, IfOk, Ok, Some};
ghost use Rattle.vlog_tree.specs.declared.expr.Expr as expr;
ghost use Rattle.vlog_tree.specs.declared.stmt.Arm as arm;
ghost use Rattle.vlog_tree.specs.declared.stmt.Stmt as tree;
ghost use Rattle.vlog_tree.specs.declared.stmt.Stmt.TheVariants as stmt;
ghost use Rattle.vlog_const.specs.declared.answer.ConstValue as value;
ghost use Rattle.proc_loops.specs.declared.progress.Progress as progress;
ghost use Rattle.proc_loops.specs.declared.pieces.Sides as two;
ghost use Rattle.proc_loops.specs.declared.turn.Turn.TheVariants.{Made};
ghost use Rattle.vlog_const.specs.Names.{values_of};
ghost use Rattle.proc_loops.specs.Faults.{Answers, Or_fault, and_then};
ghost use Rattle.proc_loops.specs.Turns.{closed, ended, stepped};
ghost use Rattle.proc_loops.specs.Unrolled.{assignment};

use crate::fault::LoopFault;
use crate::header_values::stepped;
use crate::progress::{Progress, closed};
use crate::putting::put_in;
use crate::scope::Scope;
use crate::turn::Turn;
use crate::writing::as_number;
use rdc_outside::Place;
use sqlite_items::{Boxed, Items};
use std::alloc::{AllocError, Global};
use vlog_const::ConstValue;
use vlog_tree::{Arm, Assigns, Expr, Ident, Loop, Matching, Name, Stmt};

/// Both sides of an `if`, and how far the unrolling is then.
#[derive(Drop)]
pub struct Sides {
    pub first: Boxed<Stmt>,
    pub other: Option<Boxed<Stmt>>,
    pub then: Progress,
}

/// A name, where one is written.
fn label_of(alloc: Global, label: &Option<Ident>) -> Result<Option<Ident>, AllocError>
    ensures { IfOk result (λ copy. copy ≡ label.now) }
{
    match label {
        None => Ok(None),
        Some(label) => {
            let name = Name::from_slice(alloc, label.name.as_slice())?;
            Ok(Some(Ident {
                place: label.place,
                name,
            }))
        }
    }
}

/// An assignment.
#[tactic(auto, unfolding(crate::specs::Unrolled::assignment, crate::specs::Faults::and_then))]
pub fn assignment(
    alloc: Global,
    place: Place,
    target: &Expr,
    by: Assigns,
    value: &Expr,
    scope: &Scope,
    p: Progress,
) -> Result<(Stmt, Progress), LoopFault>
    ensures { Answers result (assignment place target.now by value.now (values_of scope.now.env) p) }
{
    let target = put_in(alloc, target, scope)?;
    let value = put_in(alloc, value, scope)?;
    Ok((Stmt::Assign(place, target, by, value), p))
}

/// Statements with one more.
pub fn pushed(done: Items<Stmt>, s: Stmt, p: Progress) -> Result<(Items<Stmt>, Progress), LoopFault>
    ensures { Answers result (Ok (done ++ s ∷ [], p)) }
{
    let mut done = done;
    done.push(s)?;
    Ok((done, p))
}

/// Statements with the value that a loop's variable ends with.
pub fn ended(
    alloc: Global,
    done: Items<Stmt>,
    header: &Loop,
    v: ConstValue,
    p: Progress,
) -> Result<(Items<Stmt>, Progress), LoopFault>
    ensures { Answers result (Ok (done ++ ended header.now.variable v ∷ [], closed p)) }
{
    let s = end(alloc, &header.variable, v)?;
    pushed(done, s, closed(p))
}

/// The assignment of what a variable ends with.
fn end(alloc: Global, variable: &Ident, v: ConstValue) -> Result<Stmt, AllocError>
    ensures { IfOk result (λ s. s ≡ ended variable.now v) }
{
    let place = variable.place;
    let name = Name::from_slice(alloc, variable.name.as_slice())?;
    let value = as_number(alloc, place, v)?;
    Ok(Stmt::Assign(place, Expr::Name(place, name), Assigns::Blocking, value))
}

/// A statement in a box.
#[tactic(auto, unfolding(crate::specs::Faults::and_then))]
pub fn boxed(
    alloc: Global,
    step: Result<(Stmt, Progress), LoopFault>,
) -> Result<(Boxed<Stmt>, Progress), LoopFault>
    ensures { (r : Or_fault (tree.Stmt × progress.Progress)) → Answers step r → Answers result r }
{
    let (s, p) = step?;
    Ok((Boxed::new(alloc, s)?, p))
}

/// A block of statements.
#[tactic(auto, unfolding(crate::specs::Faults::and_then))]
pub fn block(
    alloc: Global,
    place: Place,
    label: &Option<Ident>,
    ss: Result<(Items<Stmt>, Progress), LoopFault>,
) -> Result<(Stmt, Progress), LoopFault>
    ensures { (r : Or_fault (List tree.Stmt × progress.Progress)) → Answers ss r → Answers result (and_then r (λ r. Ok (stmt.Block place label.now r.0, r.1))) }
{
    let (ss, p) = ss?;
    let label = label_of(alloc, label)?;
    Ok((Stmt::Block(place, label, ss), p))
}

/// Both sides of an `if`, the second one of them not cut off.
#[tactic(auto, unfolding(crate::specs::Faults::and_then))]
pub fn both(
    first: Boxed<Stmt>,
    other: Result<(Boxed<Stmt>, Progress), LoopFault>,
) -> Result<Sides, LoopFault>
    ensures { (r : Or_fault (tree.Stmt × progress.Progress)) → Answers other r → Answers result (and_then r (λ q. Ok (record { first = first; other = Some q.0; then = q.1 }))) }
{
    let (other, then) = other?;
    Ok(Sides {
        first,
        other: Some(other),
        then,
    })
}

/// An `if` of its parts.
#[tactic(auto, unfolding(crate::specs::Faults::and_then))]
pub fn choice(
    place: Place,
    test: Result<Expr, LoopFault>,
    sides: Result<Sides, LoopFault>,
) -> Result<(Stmt, Progress), LoopFault>
    ensures { (t : Or_fault expr.Expr) (r : Or_fault two.Sides) → Answers test t → Answers sides r → Answers result (and_then t (λ t. and_then r (λ r. Ok (stmt.If place t r.first r.other, r.then)))) }
{
    let test = test?;
    let Sides { first, other, then } = sides?;
    Ok((Stmt::If(place, test, first, other), then))
}

/// A `case` of its parts.
#[tactic(auto, unfolding(crate::specs::Faults::and_then))]
pub fn case(
    place: Place,
    how: Matching,
    selector: Result<Expr, LoopFault>,
    arms: Result<(Items<Arm<Boxed<Stmt>>>, Progress), LoopFault>,
) -> Result<(Stmt, Progress), LoopFault>
    ensures { (s : Or_fault expr.Expr) (r : Or_fault (List (arm.Arm tree.Stmt) × progress.Progress)) → Answers selector s → Answers arms r → Answers result (and_then s (λ s. and_then r (λ r. Ok (stmt.Case place how s r.0, r.1)))) }
{
    let selector = selector?;
    let (arms, p) = arms?;
    Ok((Stmt::Case(place, how, selector, arms), p))
}

/// A case item of its parts.
#[tactic(auto, unfolding(crate::specs::Faults::and_then))]
pub fn case_item(
    place: Place,
    labels: Result<Items<Expr>, LoopFault>,
    body: Result<(Boxed<Stmt>, Progress), LoopFault>,
) -> Result<(Arm<Boxed<Stmt>>, Progress), LoopFault>
    ensures { (s : Or_fault (List expr.Expr)) (r : Or_fault (tree.Stmt × progress.Progress)) → Answers labels s → Answers body r → Answers result (and_then s (λ s. and_then r (λ r. Ok (record { place = place; labels = s; body = r.0 }, r.1)))) }
{
    let labels = labels?;
    let (body, p) = body?;
    Ok((
        Arm {
            place,
            labels,
            body,
        },
        p,
    ))
}

/// A turn, after its step.
#[tactic(auto, unfolding(crate::specs::Faults::and_then))]
pub fn made(
    header: &Loop,
    v: ConstValue,
    s: Stmt,
    p: Progress,
    given: Result<ConstValue, LoopFault>,
) -> Result<Turn, LoopFault>
    ensures { (r : Or_fault value.ConstValue) → Answers given r → Answers result (and_then r (λ w. Ok (Made s (stepped header.now v w) p))) }
{
    let w = given?;
    Ok(Turn::Made(s, stepped(header, v, w), p))
}
