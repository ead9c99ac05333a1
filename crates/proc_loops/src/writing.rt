//! Expressions with a number in the place of each constant.
ghost use Rattle.std.specs.Prelude.{◌≡◌, List, map, IfOk};
ghost use Rattle.vlog_tree.specs.declared.expr.Expr as tree;
ghost use Rattle.vlog_tree.specs.declared.expr.Expr.TheVariants as expr;
ghost use Rattle.vlog_const.specs.Names.{values_of};
ghost use Rattle.vlog_const.specs.Constants.{value_of};
ghost use Rattle.design_form.specs.ConstantLaws.{as_number, written};
ghost use Rattle.proc_loops.specs.Constants.{value_if};

use rdc_outside::Place;
use sqlite_items::{Boxed, Items};
use std::alloc::{AllocError, Global};
use vlog_const::{ConstFault, ConstValue, Env, value};
use vlog_tree::{Base, Binary, Expr, Name, Number, Part};

/// The value of a constant expression, where it has one.
fn constant(alloc: Global, e: &Expr, env: &Env) -> Result<Option<ConstValue>, AllocError>
    ensures { IfOk result (λ v. v ≡ value_if (value_of (values_of env.now) e.now)) }
{
    match value(alloc, e, env) {
        Ok(v) => Ok(Some(v)),
        Err(ConstFault::Memory) => Err(AllocError),
        Err(_) => Ok(None),
    }
}

/// A value as a number.
pub fn as_number(alloc: Global, place: Place, v: ConstValue) -> Result<Expr, AllocError>
    ensures { IfOk result (λ e. e ≡ as_number place v) }
{
    let number = Number {
        sized: true,
        signed: v.signed,
        base: Base::Decimal,
        width: v.width,
        bits: v.bits,
        z: 0,
    };
    Ok(Expr::Number(place, Boxed::new(alloc, number)?))
}

/// An expression with a number in the place of each name, and of each select, that has a value.
///
/// # Errors
/// Want of memory.
#[cycle(writing)]
#[tactic(auto, using(crate::proofs::WrittenForms::forms))]
pub fn written(alloc: Global, e: &Expr, env: &Env) -> Result<Expr, AllocError>
    ensures { IfOk result (λ w. w ≡ written (values_of env.now) e.now) }
{
    match e {
        Expr::Number(place, n) => number(alloc, *place, n.get()),
        Expr::Name(place, name) => match constant(alloc, e, env)? {
            Some(v) => as_number(alloc, *place, v),
            None => Ok(Expr::Name(*place, Name::from_slice(alloc, name.as_slice())?)),
        },
        Expr::Index(place, name, at) => match constant(alloc, e, env)? {
            Some(v) => as_number(alloc, *place, v),
            None => index(alloc, *place, name.as_slice(), boxed(alloc, at.get(), env)),
        },
        Expr::Select(part, place, name, first, second) => match constant(alloc, e, env)? {
            Some(v) => as_number(alloc, *place, v),
            None => {
                let first = boxed(alloc, first.get(), env);
                let second = boxed(alloc, second.get(), env);
                select(alloc, *place, name.as_slice(), *part, first, second)
            }
        },
        Expr::Brackets(place, inner) => Ok(Expr::Brackets(*place, boxed(alloc, inner.get(), env)?)),
        Expr::Concat(place, members) => Ok(Expr::Concat(
            *place,
            all(alloc, members.as_slice(), env)?,
        )),
        Expr::Repeat(place, n, members) => {
            let n = boxed(alloc, n.get(), env);
            let members = all(alloc, members.as_slice(), env);
            repeat(*place, n, members)
        }
        Expr::Unary(place, op, inner) => Ok(Expr::Unary(
            *place,
            *op,
            boxed(alloc, inner.get(), env)?,
        )),
        Expr::Binary(place, op, left, right) => {
            let left = boxed(alloc, left.get(), env);
            let right = boxed(alloc, right.get(), env);
            binary(*place, *op, left, right)
        }
        Expr::Conditional(place, test, left, right) => {
            let test = boxed(alloc, test.get(), env);
            let left = boxed(alloc, left.get(), env);
            let right = boxed(alloc, right.get(), env);
            conditional(*place, test, left, right)
        }
    }
}

/// A number.
fn number(alloc: Global, place: Place, n: &Number) -> Result<Expr, AllocError>
    ensures { IfOk result (λ e. e ≡ expr.Number place n.now) }
{
    Ok(Expr::Number(place, Boxed::new(alloc, *n)?))
}

/// In a box.
#[cycle(writing)]
fn boxed(alloc: Global, e: &Expr, env: &Env) -> Result<Boxed<Expr>, AllocError>
    ensures { IfOk result (λ w. w ≡ written (values_of env.now) e.now) }
{
    Boxed::new(alloc, written(alloc, e, env)?)
}

/// A bit by an index.
fn index(
    alloc: Global,
    place: Place,
    name: &[u8],
    at: Result<Boxed<Expr>, AllocError>,
) -> Result<Expr, AllocError>
    ensures { (i : tree.Expr) → IfOk at (λ a. a ≡ i) → IfOk result (λ w. w ≡ expr.Index place name.now i) }
{
    let at = at?;
    let name = Name::from_slice(alloc, name)?;
    Ok(Expr::Index(place, name, at))
}

/// A select of bits.
fn select(
    alloc: Global,
    place: Place,
    name: &[u8],
    part: Part,
    first: Result<Boxed<Expr>, AllocError>,
    second: Result<Boxed<Expr>, AllocError>,
) -> Result<Expr, AllocError>
    ensures { (i j : tree.Expr) → IfOk first (λ a. a ≡ i) → IfOk second (λ a. a ≡ j) → IfOk result (λ w. w ≡ expr.Select part place name.now i j) }
{
    let first = first?;
    let second = second?;
    let name = Name::from_slice(alloc, name)?;
    Ok(Expr::Select(part, place, name, first, second))
}

/// Copies of members.
fn repeat(
    place: Place,
    n: Result<Boxed<Expr>, AllocError>,
    members: Result<Items<Expr>, AllocError>,
) -> Result<Expr, AllocError>
    ensures { (k : tree.Expr) (es : List tree.Expr) → IfOk n (λ a. a ≡ k) → IfOk members (λ a. a ≡ es) → IfOk result (λ w. w ≡ expr.Repeat place k es) }
{
    let n = n?;
    let members = members?;
    Ok(Expr::Repeat(place, n, members))
}

/// An operator between operands.
fn binary(
    place: Place,
    op: Binary,
    left: Result<Boxed<Expr>, AllocError>,
    right: Result<Boxed<Expr>, AllocError>,
) -> Result<Expr, AllocError>
    ensures { (x y : tree.Expr) → IfOk left (λ a. a ≡ x) → IfOk right (λ a. a ≡ y) → IfOk result (λ w. w ≡ expr.Binary place op x y) }
{
    let left = left?;
    let right = right?;
    Ok(Expr::Binary(place, op, left, right))
}

/// `test ? left : right`
fn conditional(
    place: Place,
    test: Result<Boxed<Expr>, AllocError>,
    left: Result<Boxed<Expr>, AllocError>,
    right: Result<Boxed<Expr>, AllocError>,
) -> Result<Expr, AllocError>
    ensures { (t x y : tree.Expr) → IfOk test (λ a. a ≡ t) → IfOk left (λ a. a ≡ x) → IfOk right (λ a. a ≡ y) → IfOk result (λ w. w ≡ expr.Conditional place t x y) }
{
    let test = test?;
    let left = left?;
    let right = right?;
    Ok(Expr::Conditional(place, test, left, right))
}

/// Each of some.
#[cycle(writing)]
fn all(alloc: Global, es: &[Expr], env: &Env) -> Result<Items<Expr>, AllocError>
    ensures { IfOk result (λ ws. ws ≡ map (written (values_of env.now)) es.now) }
{
    let mut done = Items::new(alloc);
    for e in es {
        let e = match written(alloc, e, env) {
            Ok(e) => e,
            Err(fault) => return Err(fault),
        };
        match done.push(e) {
            Ok(()) => {}
            Err(fault) => return Err(fault),
        }
    }
    Ok(done)
}
