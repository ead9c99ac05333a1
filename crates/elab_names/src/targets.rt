//! What is assigned, in a scope.
ghost use Rattle.std.specs.Prelude.{◌≡◌, map, IfOk};
ghost use Rattle.vlog_tree.specs.declared.expr.Expr.TheVariants as expr;
ghost use Rattle.elab_names.specs.Answers.{Answers, gathered};
ghost use Rattle.elab_names.specs.Expressions.{put_in};
ghost use Rattle.elab_names.specs.Meanings.{found, frames_of};
ghost use Rattle.elab_names.specs.Targets.{assignable, printed, target_in};

use crate::answers::assignable;
use crate::expressions::{put_in, select};
use crate::fault::ElabFault;
use crate::scope::Scope;
use rdc_outside::Place;
use sqlite_items::{Boxed, Items};
use std::alloc::{AllocError, Global};
use vlog_tree::{Expr, Name, Part};

/// The printed name of the signal that a name means.
#[tactic(auto, unfolding(crate::specs::Targets::printed, crate::specs::Answers::and_then))]
fn printed(alloc: Global, place: Place, name: &[u8], scope: &Scope) -> Result<Name, ElabFault>
    ensures { Answers (λ n. n) result (printed (frames_of scope.now) place name.now) }
{
    let signal = assignable(alloc, place, name, scope)?;
    Ok(Name::from_slice(alloc, signal.printed.as_slice())?)
}

/// `name[index]`
fn index(alloc: Global, place: Place, name: Name, index: Expr) -> Result<Expr, AllocError>
    ensures { IfOk result (λ e. e ≡ expr.Index place name index) }
{
    Ok(Expr::Index(place, name, Boxed::new(alloc, index)?))
}

/// `name[index]` as a target.
#[tactic(auto, using(crate::proofs::TargetForms::forms), unfolding(crate::specs::Answers::and_then))]
fn index_in(
    alloc: Global,
    place: Place,
    name: &Name,
    at: &Expr,
    scope: &Scope,
) -> Result<Expr, ElabFault>
    ensures { Answers (λ e. e) result (target_in (frames_of scope.now) (expr.Index place name.now at.now)) }
{
    let name = printed(alloc, place, name.as_slice(), scope)?;
    let at = put_in(alloc, at, scope)?;
    Ok(index(alloc, place, name, at)?)
}

/// `name[first : second]` and its like as a target.
#[tactic(auto, using(crate::proofs::TargetForms::forms), unfolding(crate::specs::Answers::and_then))]
fn select_in(
    alloc: Global,
    place: Place,
    name: &Name,
    part: Part,
    first: &Expr,
    second: &Expr,
    scope: &Scope,
) -> Result<Expr, ElabFault>
    ensures { Answers (λ e. e) result (target_in (frames_of scope.now) (expr.Select part place name.now first.now second.now)) }
{
    let name = printed(alloc, place, name.as_slice(), scope)?;
    let first = put_in(alloc, first, scope)?;
    let second = put_in(alloc, second, scope)?;
    Ok(select(alloc, place, name, part, first, second)?)
}

/// What is assigned, in a scope: a signal, a select of one, or a concatenation of these, each under its printed name.
///
/// # Errors
/// Of the first part in the order of reading: `Undeclared` at a name that is not declared, `NotAssignable` at one that is
/// no signal and at any other form of expression, and the faults of `put_in` in an index.
#[cycle(targets)]
#[tactic(auto, using(crate::proofs::TargetForms::forms), unfolding(crate::specs::Answers::and_then))]
pub fn target_in(alloc: Global, e: &Expr, scope: &Scope) -> Result<Expr, ElabFault>
    ensures { Answers (λ e. e) result (target_in (frames_of scope.now) e.now) }
{
    match e {
        Expr::Name(place, name) => {
            let name = printed(alloc, *place, name.as_slice(), scope)?;
            Ok(Expr::Name(*place, name))
        }
        Expr::Index(place, name, at) => index_in(alloc, *place, name, at.get(), scope),
        Expr::Select(part, place, name, first, second) => {
            let (first, second) = (first.get(), second.get());
            select_in(alloc, *place, name, *part, first, second, scope)
        }
        Expr::Concat(place, members) => {
            let members = targets_in(alloc, members.as_slice(), scope)?;
            Ok(Expr::Concat(*place, members))
        }
        Expr::Number(place, _)
        | Expr::Brackets(place, _)
        | Expr::Repeat(place, _, _)
        | Expr::Unary(place, _, _)
        | Expr::Binary(place, _, _, _)
        | Expr::Conditional(place, _, _, _) => Err(ElabFault::NotAssignable(*place)),
    }
}

/// The members of a concatenation that is assigned.
#[cycle(targets)]
#[tactic(auto, using(crate::proofs::Lists::gathers))]
fn targets_in(alloc: Global, members: &[Expr], scope: &Scope) -> Result<Items<Expr>, ElabFault>
    ensures { Answers (λ es. es) result (gathered (map (target_in (frames_of scope.now)) members.now)) }
{
    let mut out = Items::from_vec(Vec::with_capacity(alloc, members.len())?);
    for member in members {
        match target_in(alloc, member, scope) {
            Ok(member) => match out.push(member) {
                Ok(()) => {}
                Err(_) => return Err(ElabFault::Memory),
            },
            Err(fault) => return Err(fault),
        }
    }
    Ok(out)
}
