//! Statements in a scope.
ghost use Rattle.std.specs.Prelude.{◌≡◌, List, Option, map, IfOk, Ok};
ghost use Rattle.vlog_tree.specs.declared.expr.Expr.{Expr};
ghost use Rattle.vlog_tree.specs.declared.stmt.Arm.{Arm};
ghost use Rattle.vlog_tree.specs.declared.stmt.Loop.{Loop};
ghost use Rattle.vlog_tree.specs.declared.stmt.Stmt.{Stmt};
ghost use Rattle.std.specs.Option.{option_map};
ghost use Rattle.vlog_tree.specs.declared.stmt.Stmt.TheVariants as stmt;
ghost use Rattle.elab_names.specs.Answers.{Answers, Or_fault, and_then, gathered, optional};
ghost use Rattle.elab_names.specs.Meanings.{frames_of};
ghost use Rattle.elab_names.specs.Statements.{arm_with, counter_in, loop_in, statement_in};

use crate::answers::counter;
use crate::expressions::{all_put_in, put_in};
use crate::fault::ElabFault;
use crate::scope::Scope;
use crate::targets::target_in;
use rdc_outside::Place;
use sqlite_items::{Boxed, Items};
use std::alloc::{AllocError, Global};
use vlog_tree::{Arm, Assigns, Expr, Ident, Loop, Matching, Name, Stmt};

/// A variable of a loop.
#[tactic(auto, unfolding(crate::specs::Statements::counter_in, crate::specs::Answers::and_then))]
fn counter_in(alloc: Global, name: &Ident, scope: &Scope) -> Result<Ident, ElabFault>
    ensures { Answers (λ i. i) result (counter_in (frames_of scope.now) name.now) }
{
    let signal = counter(alloc, name.place, name.name.as_slice(), scope)?;
    Ok(Ident {
        place: name.place,
        name: Name::from_slice(alloc, signal.printed.as_slice())?,
    })
}

/// The head of a loop from its parts.
fn head(
    alloc: Global,
    variable: Ident,
    start: Expr,
    test: Expr,
    stepped: Ident,
    step: Expr,
) -> Result<Loop, AllocError>
    ensures { IfOk result (λ l. l ≡ record { variable = variable; start = start; test = test; stepped = stepped; step = step }) }
{
    let start = Boxed::new(alloc, start)?;
    let test = Boxed::new(alloc, test)?;
    let step = Boxed::new(alloc, step)?;
    Ok(Loop {
        variable,
        start,
        test,
        stepped,
        step,
    })
}

/// The head of a loop.
#[tactic(auto, unfolding(crate::specs::Statements::loop_in, crate::specs::Answers::and_then))]
fn loop_in(alloc: Global, header: &Loop, scope: &Scope) -> Result<Loop, ElabFault>
    ensures { Answers (λ l. l) result (loop_in (frames_of scope.now) header.now) }
{
    let variable = counter_in(alloc, &header.variable, scope)?;
    let start = put_in(alloc, header.start.get(), scope)?;
    let test = put_in(alloc, header.test.get(), scope)?;
    let stepped = counter_in(alloc, &header.stepped, scope)?;
    let step = put_in(alloc, header.step.get(), scope)?;
    Ok(head(alloc, variable, start, test, stepped, step)?)
}

/// `if` from its parts.
fn branch(
    alloc: Global,
    place: Place,
    test: Expr,
    yes: Stmt,
    no: Option<Boxed<Stmt>>,
) -> Result<Stmt, AllocError>
    ensures { IfOk result (λ s. s ≡ stmt.If place test yes no) }
{
    Ok(Stmt::If(place, test, Boxed::new(alloc, yes)?, no))
}

/// `for` from its parts.
fn repeated(alloc: Global, place: Place, header: Loop, body: Stmt) -> Result<Stmt, AllocError>
    ensures { IfOk result (λ s. s ≡ stmt.For place header body) }
{
    Ok(Stmt::For(place, header, Boxed::new(alloc, body)?))
}

/// A case item from its parts.
fn arm(
    alloc: Global,
    place: Place,
    labels: Items<Expr>,
    body: Stmt,
) -> Result<Arm<Boxed<Stmt>>, AllocError>
    ensures { IfOk result (λ a. a ≡ record { place = place; labels = labels; body = body }) }
{
    Ok(Arm {
        place,
        labels,
        body: Boxed::new(alloc, body)?,
    })
}

/// A case item, of which both parts were put in.
#[tactic(auto, unfolding(crate::specs::Answers::and_then))]
fn arm_of(
    alloc: Global,
    place: Place,
    labels: Result<Items<Expr>, ElabFault>,
    body: Result<Stmt, ElabFault>,
) -> Result<Arm<Boxed<Stmt>>, ElabFault>
    ensures { (l : Or_fault (List Expr)) (b : Or_fault Stmt) → Answers (λ es. es) labels l → Answers (λ s. s) body b → Answers (λ a. a) result (and_then l (λ x. and_then b (λ y. Ok (record { place = place; labels = x; body = y })))) }
{
    let labels = labels?;
    let body = body?;
    Ok(arm(alloc, place, labels, body)?)
}

/// An assignment in a scope.
#[tactic(auto, using(crate::proofs::StatementForms::forms), unfolding(crate::specs::Answers::and_then))]
fn assign_in(
    alloc: Global,
    place: Place,
    target: &Expr,
    by: Assigns,
    value: &Expr,
    scope: &Scope,
) -> Result<Stmt, ElabFault>
    ensures { Answers (λ s. s) result (statement_in (frames_of scope.now) (stmt.Assign place target.now by value.now)) }
{
    let target = target_in(alloc, target, scope)?;
    let value = put_in(alloc, value, scope)?;
    Ok(Stmt::Assign(place, target, by, value))
}

/// `if`, of which what stands behind `else` comes last.
#[tactic(auto, unfolding(crate::specs::Answers::and_then))]
fn branch_else(
    alloc: Global,
    place: Place,
    test: Expr,
    yes: Stmt,
    no: Result<Option<Boxed<Stmt>>, ElabFault>,
) -> Result<Stmt, ElabFault>
    ensures { (b : Or_fault (Option Stmt)) → Answers (λ o. o) no b → Answers (λ s. s) result (and_then b (λ y. Ok (stmt.If place test yes y))) }
{
    match no {
        Ok(no) => Ok(branch(alloc, place, test, yes, no)?),
        Err(fault) => Err(fault),
    }
}

/// `if`, of which the first branch comes next.
#[tactic(auto, unfolding(crate::specs::Answers::and_then))]
fn branch_then(
    alloc: Global,
    place: Place,
    test: Expr,
    yes: Result<Stmt, ElabFault>,
    no: Result<Option<Boxed<Stmt>>, ElabFault>,
) -> Result<Stmt, ElabFault>
    ensures { (a : Or_fault Stmt) (b : Or_fault (Option Stmt)) → Answers (λ s. s) yes a → Answers (λ o. o) no b → Answers (λ s. s) result (and_then a (λ x. and_then b (λ y. Ok (stmt.If place test x y)))) }
{
    match yes {
        Ok(yes) => branch_else(alloc, place, test, yes, no),
        Err(fault) => Err(fault),
    }
}

/// `if`, of which all parts were put in.
#[tactic(auto, unfolding(crate::specs::Answers::and_then))]
fn branch_of(
    alloc: Global,
    place: Place,
    test: Result<Expr, ElabFault>,
    yes: Result<Stmt, ElabFault>,
    no: Result<Option<Boxed<Stmt>>, ElabFault>,
) -> Result<Stmt, ElabFault>
    ensures { (t : Or_fault Expr) (a : Or_fault Stmt) (b : Or_fault (Option Stmt)) → Answers (λ e. e) test t → Answers (λ s. s) yes a → Answers (λ o. o) no b → Answers (λ s. s) result (and_then t (λ o. and_then a (λ x. and_then b (λ y. Ok (stmt.If place o x y))))) }
{
    match test {
        Ok(test) => branch_then(alloc, place, test, yes, no),
        Err(fault) => Err(fault),
    }
}

/// `case`, of which all parts were put in.
#[tactic(auto, unfolding(crate::specs::Answers::and_then))]
fn case_of(
    place: Place,
    matching: Matching,
    selector: Result<Expr, ElabFault>,
    arms: Result<Items<Arm<Boxed<Stmt>>>, ElabFault>,
) -> Result<Stmt, ElabFault>
    ensures { (s : Or_fault Expr) (r : Or_fault (List (Arm Stmt))) → Answers (λ e. e) selector s → Answers (λ a. a) arms r → Answers (λ s. s) result (and_then s (λ x. and_then r (λ xs. Ok (stmt.Case place matching x xs)))) }
{
    let selector = selector?;
    let arms = arms?;
    Ok(Stmt::Case(place, matching, selector, arms))
}

/// `for`, of which all parts were put in.
#[tactic(auto, unfolding(crate::specs::Answers::and_then))]
fn for_of(
    alloc: Global,
    place: Place,
    header: Result<Loop, ElabFault>,
    body: Result<Stmt, ElabFault>,
) -> Result<Stmt, ElabFault>
    ensures { (h : Or_fault Loop) (b : Or_fault Stmt) → Answers (λ l. l) header h → Answers (λ s. s) body b → Answers (λ s. s) result (and_then h (λ x. and_then b (λ y. Ok (stmt.For place x y)))) }
{
    let header = header?;
    let body = body?;
    Ok(repeated(alloc, place, header, body)?)
}

/// A statement in a scope: names as they are printed, numbers in the place of constants, and no block's name.
///
/// # Errors
/// Of the first part in the order of reading: those of `put_in` and `target_in`, and for a variable of a loop `Undeclared`
/// where it is not declared and `Const(NotConstant)` where it is no integer.
#[cycle(statements)]
#[tactic(auto, using(crate::proofs::StatementForms::forms), unfolding(crate::specs::Answers::and_then))]
pub fn statement_in(alloc: Global, s: &Stmt, scope: &Scope) -> Result<Stmt, ElabFault>
    ensures { Answers (λ s. s) result (statement_in (frames_of scope.now) s.now) }
{
    match s {
        Stmt::Empty(place) => Ok(Stmt::Empty(*place)),
        Stmt::Block(place, _, inner) => {
            let inner = statements_in(alloc, inner.as_slice(), scope)?;
            Ok(Stmt::Block(*place, None, inner))
        }
        Stmt::Assign(place, target, by, value) => {
            assign_in(alloc, *place, target, *by, value, scope)
        }
        Stmt::If(place, test, yes, no) => {
            let test = put_in(alloc, test, scope);
            let yes = statement_in(alloc, yes.get(), scope);
            let no = else_in(alloc, no, scope);
            branch_of(alloc, *place, test, yes, no)
        }
        Stmt::Case(place, matching, selector, arms) => {
            let selector = put_in(alloc, selector, scope);
            let arms = arms_in(alloc, arms.as_slice(), scope);
            case_of(*place, *matching, selector, arms)
        }
        Stmt::For(place, header, body) => {
            let header = loop_in(alloc, header, scope);
            let body = statement_in(alloc, body.get(), scope);
            for_of(alloc, *place, header, body)
        }
    }
}

/// What stands behind `else`, if anything does.
#[cycle(statements)]
#[tactic(auto, unfolding(crate::specs::Answers::optional, crate::specs::Answers::and_then))]
fn else_in(
    alloc: Global,
    no: &Option<Boxed<Stmt>>,
    scope: &Scope,
) -> Result<Option<Boxed<Stmt>>, ElabFault>
    ensures { Answers (λ o. o) result (optional (option_map (statement_in (frames_of scope.now)) no.now)) }
{
    match no {
        None => Ok(None),
        Some(no) => {
            let no = statement_in(alloc, no.get(), scope)?;
            Ok(Some(Boxed::new(alloc, no)?))
        }
    }
}

/// The statements of a block.
#[cycle(statements)]
#[tactic(auto, using(crate::proofs::Lists::gathers))]
fn statements_in(alloc: Global, inner: &[Stmt], scope: &Scope) -> Result<Items<Stmt>, ElabFault>
    ensures { Answers (λ ss. ss) result (gathered (map (statement_in (frames_of scope.now)) inner.now)) }
{
    let mut out = Items::from_vec(Vec::with_capacity(alloc, inner.len())?);
    for s in inner {
        match statement_in(alloc, s, scope) {
            Ok(s) => match out.push(s) {
                Ok(()) => {}
                Err(_) => return Err(ElabFault::Memory),
            },
            Err(fault) => return Err(fault),
        }
    }
    Ok(out)
}

/// The items of a `case`.
#[cycle(statements)]
#[tactic(auto, using(crate::proofs::Lists::gathers))]
fn arms_in(
    alloc: Global,
    items: &[Arm<Boxed<Stmt>>],
    scope: &Scope,
) -> Result<Items<Arm<Boxed<Stmt>>>, ElabFault>
    ensures { Answers (λ a. a) result (gathered (map (arm_with (frames_of scope.now)) items.now)) }
{
    let mut out = Items::from_vec(Vec::with_capacity(alloc, items.len())?);
    for item in items {
        let labels = all_put_in(alloc, item.labels.as_slice(), scope);
        let body = statement_in(alloc, item.body.get(), scope);
        match arm_of(alloc, item.place, labels, body) {
            Ok(item) => match out.push(item) {
                Ok(()) => {}
                Err(_) => return Err(ElabFault::Memory),
            },
            Err(fault) => return Err(fault),
        }
    }
    Ok(out)
}
