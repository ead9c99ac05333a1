//! Expressions in a scope, and what constant ones are worth.
ghost use Rattle.std.specs.Prelude.{◌≡◌, ◌≤◌, List, map, IfOk, Ok};
ghost use Rattle.vlog_tree.specs.declared.expr.Expr.{Expr};
ghost use Rattle.vlog_tree.specs.declared.expr.Expr.TheVariants as expr;
ghost use Rattle.vlog_const.specs.Names.{no_values};
ghost use Rattle.vlog_const.specs.Constants.{value_within};
ghost use Rattle.elab_names.specs.Answers.{Answers, Or_fault, and_then, gathered, lifted};
ghost use Rattle.elab_names.specs.Expressions.{constant, constant_within, indexed, meant, named, put_in, selected};
ghost use Rattle.elab_names.specs.Meanings.{found, frames_of};

use crate::answers::{meant, not_constant};
use crate::fault::ElabFault;
use crate::meaning::Meaning;
use crate::numbers::{alone, as_number, bit_in, part_in};
use crate::scope::Scope;
use rdc_outside::Place;
use sqlite_items::{Boxed, Items};
use std::alloc::{AllocError, Global};
use vlog_const::{ConstValue, Env, value_within};
use vlog_tree::{Binary, Expr, Name, Number, Part, Unary, fitted};

/// A name.
#[tactic(auto, unfolding(crate::specs::Expressions::named))]
fn named(alloc: Global, place: Place, meaning: &Meaning) -> Result<Expr, ElabFault>
    ensures { Answers (λ e. e) result (named place meaning.now) }
{
    match meaning {
        Meaning::Constant(value) => Ok(as_number(alloc, place, *value)?),
        Meaning::Signal(signal) => {
            let name = Name::from_slice(alloc, signal.printed.as_slice())?;
            Ok(Expr::Name(place, name))
        }
        Meaning::Other => Err(not_constant(place)),
    }
}

/// `name[index]`
#[tactic(auto, unfolding(crate::specs::Expressions::indexed))]
fn indexed(alloc: Global, place: Place, meaning: &Meaning, index: Expr) -> Result<Expr, ElabFault>
    ensures { Answers (λ e. e) result (indexed place meaning.now index) }
{
    match meaning {
        Meaning::Constant(value) => bit_in(alloc, place, *value, &index),
        Meaning::Signal(signal) => {
            let name = Name::from_slice(alloc, signal.printed.as_slice())?;
            Ok(Expr::Index(place, name, Boxed::new(alloc, index)?))
        }
        Meaning::Other => Err(not_constant(place)),
    }
}

/// `name[first : second]` and its like
#[tactic(auto, unfolding(crate::specs::Expressions::selected))]
fn selected(
    alloc: Global,
    place: Place,
    meaning: &Meaning,
    part: Part,
    first: Expr,
    second: Expr,
) -> Result<Expr, ElabFault>
    ensures { Answers (λ e. e) result (selected place meaning.now part first second) }
{
    match meaning {
        Meaning::Constant(value) => part_in(alloc, place, *value, part, &first, &second),
        Meaning::Signal(signal) => {
            let name = Name::from_slice(alloc, signal.printed.as_slice())?;
            Ok(select(alloc, place, name, part, first, second)?)
        }
        Meaning::Other => Err(not_constant(place)),
    }
}

/// A select of a name.
pub(crate) fn select(
    alloc: Global,
    place: Place,
    name: Name,
    part: Part,
    first: Expr,
    second: Expr,
) -> Result<Expr, AllocError>
    ensures { IfOk result (λ e. e ≡ expr.Select part place name first second) }
{
    let first = Boxed::new(alloc, first)?;
    let second = Boxed::new(alloc, second)?;
    Ok(Expr::Select(part, place, name, first, second))
}

/// A number as it stands.
fn number(alloc: Global, place: Place, number: &Number) -> Result<Expr, ElabFault>
    ensures { Answers (λ e. e) result (Ok (expr.Number place number.now)) }
{
    Ok(Expr::Number(place, Boxed::new(alloc, *number)?))
}

/// Brackets.
fn brackets(alloc: Global, place: Place, inner: Expr) -> Result<Expr, ElabFault>
    ensures { Answers (λ e. e) result (Ok (expr.Brackets place inner)) }
{
    Ok(Expr::Brackets(place, Boxed::new(alloc, inner)?))
}

/// Copies of members.
fn repeat(
    alloc: Global,
    place: Place,
    count: Expr,
    members: Items<Expr>,
) -> Result<Expr, AllocError>
    ensures { IfOk result (λ e. e ≡ expr.Repeat place count members) }
{
    Ok(Expr::Repeat(place, Boxed::new(alloc, count)?, members))
}

/// An operator before its operand.
fn unary(alloc: Global, place: Place, op: Unary, inner: Expr) -> Result<Expr, ElabFault>
    ensures { Answers (λ e. e) result (Ok (expr.Unary place op inner)) }
{
    Ok(Expr::Unary(place, op, Boxed::new(alloc, inner)?))
}

/// An operator between its operands.
fn binary(
    alloc: Global,
    place: Place,
    op: Binary,
    left: Expr,
    right: Expr,
) -> Result<Expr, AllocError>
    ensures { IfOk result (λ e. e ≡ expr.Binary place op left right) }
{
    let left = Boxed::new(alloc, left)?;
    let right = Boxed::new(alloc, right)?;
    Ok(Expr::Binary(place, op, left, right))
}

/// `test ? left : right`
fn conditional(
    alloc: Global,
    place: Place,
    test: Expr,
    left: Expr,
    right: Expr,
) -> Result<Expr, AllocError>
    ensures { IfOk result (λ e. e ≡ expr.Conditional place test left right) }
{
    let test = Boxed::new(alloc, test)?;
    let left = Boxed::new(alloc, left)?;
    let right = Boxed::new(alloc, right)?;
    Ok(Expr::Conditional(place, test, left, right))
}

/// A name in a scope.
#[tactic(auto, using(crate::proofs::PutForms::forms), unfolding(crate::specs::Answers::and_then))]
fn name_in(alloc: Global, place: Place, name: &Name, scope: &Scope) -> Result<Expr, ElabFault>
    ensures { Answers (λ e. e) result (put_in (frames_of scope.now) (expr.Name place name.now)) }
{
    let meaning = meant(alloc, place, name.as_slice(), scope)?;
    named(alloc, place, meaning)
}

/// A select of a name, of which what stands in its brackets was put in.
#[tactic(auto, unfolding(crate::specs::Answers::and_then))]
fn select_of(
    alloc: Global,
    place: Place,
    name: &Name,
    part: Part,
    first: Result<Expr, ElabFault>,
    second: Result<Expr, ElabFault>,
    scope: &Scope,
) -> Result<Expr, ElabFault>
    ensures { (a b : Or_fault Expr) → Answers (λ e. e) first a → Answers (λ e. e) second b → Answers (λ e. e) result (and_then (meant place name.now (found (frames_of scope.now) name.now)) (λ m. and_then a (λ i. and_then b (selected place m part i)))) }
{
    let meaning = meant(alloc, place, name.as_slice(), scope)?;
    let first = first?;
    let second = second?;
    selected(alloc, place, meaning, part, first, second)
}

/// Copies of members, of which both were put in.
#[tactic(auto, unfolding(crate::specs::Answers::and_then))]
fn repeat_of(
    alloc: Global,
    place: Place,
    count: Result<Expr, ElabFault>,
    members: Result<Items<Expr>, ElabFault>,
) -> Result<Expr, ElabFault>
    ensures { (a : Or_fault Expr) (es : Or_fault (List Expr)) → Answers (λ e. e) count a → Answers (λ e. e) members es → Answers (λ e. e) result (and_then a (λ n. and_then es (λ xs. Ok (expr.Repeat place n xs)))) }
{
    let count = count?;
    let members = members?;
    Ok(repeat(alloc, place, count, members)?)
}

/// An operator between its operands, which were put in.
#[tactic(auto, unfolding(crate::specs::Answers::and_then))]
fn binary_of(
    alloc: Global,
    place: Place,
    op: Binary,
    left: Result<Expr, ElabFault>,
    right: Result<Expr, ElabFault>,
) -> Result<Expr, ElabFault>
    ensures { (a b : Or_fault Expr) → Answers (λ e. e) left a → Answers (λ e. e) right b → Answers (λ e. e) result (and_then a (λ p. and_then b (λ q. Ok (expr.Binary place op p q)))) }
{
    let left = left?;
    let right = right?;
    Ok(binary(alloc, place, op, left, right)?)
}

/// `test ? left : right`, of which all were put in.
#[tactic(auto, unfolding(crate::specs::Answers::and_then))]
fn conditional_of(
    alloc: Global,
    place: Place,
    test: Result<Expr, ElabFault>,
    left: Result<Expr, ElabFault>,
    right: Result<Expr, ElabFault>,
) -> Result<Expr, ElabFault>
    ensures { (t a b : Or_fault Expr) → Answers (λ e. e) test t → Answers (λ e. e) left a → Answers (λ e. e) right b → Answers (λ e. e) result (and_then t (λ o. and_then a (λ p. and_then b (λ q. Ok (expr.Conditional place o p q))))) }
{
    let test = test?;
    let left = left?;
    let right = right?;
    Ok(conditional(alloc, place, test, left, right)?)
}

/// An expression in a scope: each signal under its printed name, and a number in the place of each constant.
///
/// # Errors
/// Of the first part in the order of reading, parts before the whole: `Undeclared` at a name that is not declared,
/// `Const(NotConstant)` at one that has no value, and of a select of a constant `Const` where a bound has no value,
/// `BadRange` where a position is none of the constant's, and `NotBuilt` at a variable index.
#[cycle(parts)]
#[tactic(auto, using(crate::proofs::PutForms::forms), unfolding(crate::specs::Answers::and_then))]
pub fn put_in(alloc: Global, e: &Expr, scope: &Scope) -> Result<Expr, ElabFault>
    ensures { Answers (λ e. e) result (put_in (frames_of scope.now) e.now) }
{
    match e {
        Expr::Number(place, n) => number(alloc, *place, n.get()),
        Expr::Name(place, name) => name_in(alloc, *place, name, scope),
        Expr::Index(place, name, index) => {
            let meaning = meant(alloc, *place, name.as_slice(), scope)?;
            let index = put_in(alloc, index.get(), scope)?;
            indexed(alloc, *place, meaning, index)
        }
        Expr::Select(part, place, name, first, second) => {
            let first = put_in(alloc, first.get(), scope);
            let second = put_in(alloc, second.get(), scope);
            select_of(alloc, *place, name, *part, first, second, scope)
        }
        Expr::Brackets(place, inner) => {
            let inner = put_in(alloc, inner.get(), scope)?;
            brackets(alloc, *place, inner)
        }
        Expr::Concat(place, members) => {
            let members = all_put_in(alloc, members.as_slice(), scope)?;
            Ok(Expr::Concat(*place, members))
        }
        Expr::Repeat(place, count, members) => {
            let count = put_in(alloc, count.get(), scope);
            let members = all_put_in(alloc, members.as_slice(), scope);
            repeat_of(alloc, *place, count, members)
        }
        Expr::Unary(place, op, inner) => {
            let inner = put_in(alloc, inner.get(), scope)?;
            unary(alloc, *place, *op, inner)
        }
        Expr::Binary(place, op, left, right) => {
            let left = put_in(alloc, left.get(), scope);
            let right = put_in(alloc, right.get(), scope);
            binary_of(alloc, *place, *op, left, right)
        }
        Expr::Conditional(place, test, left, right) => {
            let test = put_in(alloc, test.get(), scope);
            let left = put_in(alloc, left.get(), scope);
            let right = put_in(alloc, right.get(), scope);
            conditional_of(alloc, *place, test, left, right)
        }
    }
}

/// Expressions in a scope.
#[cycle(parts)]
#[tactic(auto, using(crate::proofs::Lists::gathers))]
pub(crate) fn all_put_in(
    alloc: Global,
    members: &[Expr],
    scope: &Scope,
) -> Result<Items<Expr>, ElabFault>
    ensures { Answers (λ es. es) result (gathered (map (put_in (frames_of scope.now)) members.now)) }
{
    let mut out = Items::from_vec(Vec::with_capacity(alloc, members.len())?);
    for member in members {
        match put_in(alloc, member, scope) {
            Ok(member) => match out.push(member) {
                Ok(()) => {}
                Err(_) => return Err(ElabFault::Memory),
            },
            Err(fault) => return Err(fault),
        }
    }
    Ok(out)
}

/// The value of a constant expression that stands alone.
///
/// # Errors
/// As `put_in`, and `Const` where what is put in has no value as a constant: a signal in it is `NotConstant` at its place.
#[tactic(auto, unfolding(crate::specs::Expressions::constant, crate::specs::Answers::and_then))]
pub fn constant(alloc: Global, e: &Expr, scope: &Scope) -> Result<ConstValue, ElabFault>
    ensures value { Answers (λ v. v) result (constant (frames_of scope.now) e.now) }
    ensures bound { IfOk result (λ v. v.width ≤ 128) }
{
    let e = put_in(alloc, e, scope)?;
    alone(alloc, &e)
}

/// The value of an expression that is put in, as on the right of an assignment to `width` bits.
///
/// # Errors
/// As `alone`, and `Const(TooWide)` where `width` passes 128.
#[tactic(auto, using(crate::proofs::AnswerLemmas::lifts))]
pub fn within(alloc: Global, e: &Expr, width: u32) -> Result<ConstValue, ElabFault>
    ensures value { Answers (λ v. v) result (lifted (value_within no_values width e.now)) }
    ensures bound { IfOk result (λ v. v.width ≤ 128) }
{
    match value_within(alloc, e, &Env::new(alloc), width) {
        Ok(value) => Ok(value),
        Err(cause) => Err(ElabFault::from(cause)),
    }
}

/// The value as on the right of an assignment to `width` bits.
///
/// # Errors
/// As `constant`, and `Const(TooWide)` where `width` passes 128.
#[tactic(auto, unfolding(crate::specs::Expressions::constant_within, crate::specs::Answers::and_then))]
pub fn constant_within(
    alloc: Global,
    e: &Expr,
    scope: &Scope,
    width: u32,
) -> Result<ConstValue, ElabFault>
    ensures value { Answers (λ v. v) result (constant_within (frames_of scope.now) width e.now) }
    ensures bound { IfOk result (λ v. v.width ≤ 128) }
{
    let e = put_in(alloc, e, scope)?;
    within(alloc, &e, width)
}
