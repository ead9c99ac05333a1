//! What may be driven.
ghost use Rattle.std.specs.Prelude.{◌≡◌, ◌⊎◌};
ghost use Rattle.elab_names.specs.declared.fault.ElabFault.TheVariants.{Memory, Undeclared};
ghost use Rattle.elab_names.specs.Answers.{Answers};
ghost use Rattle.elab_names.specs.Meanings.{found, frames_of};
ghost use Rattle.elab_drivers.specs.Targets.{assigned, drivable, is_wire, may_drive};
ghost use Rattle.elab_scopes.specs.Threads.{threaded};

use design_form::SignalKind;
use elab_names::{ElabFault, Known, Meaning, Scope, constant, target_in};
use rdc_outside::{Place, Seq};
use std::alloc::Global;
use vlog_tree::Expr;

/// Whether a signal is a wire that is no input port.
#[tactic(auto, unfolding(crate::specs::Targets::is_wire))]
fn is_wire(kind: SignalKind, input: bool) -> bool
    ensures { result ≡ is_wire kind input }
{
    match kind {
        SignalKind::Wire => !input,
        SignalKind::Register | SignalKind::Integer => false,
    }
}

/// A name that is not declared.
fn undeclared(alloc: Global, name: &[u8], place: Place) -> ElabFault
    ensures { (result ≡ Memory) ⊎ (result ≡ Undeclared name.now place) }
{
    match name.to_vec(alloc) {
        Ok(name) => ElabFault::Undeclared(Seq::from_vec(name), place),
        Err(_) => ElabFault::Memory,
    }
}

/// The wire that a name means.
#[tactic(auto, unfolding(crate::specs::Targets::drivable))]
pub(crate) fn drivable<'a>(
    alloc: Global,
    place: Place,
    name: &[u8],
    scope: &'a Scope,
) -> Result<&'a Known, ElabFault>
    ensures { Answers (λ s. s.now) result (drivable place name.now (found (frames_of scope.now) name.now)) }
{
    match scope.meaning(name) {
        None => Err(undeclared(alloc, name, place)),
        Some(Meaning::Signal(signal)) => {
            if is_wire(signal.kind, signal.input) {
                Ok(signal)
            } else {
                Err(ElabFault::NotAssignable(place))
            }
        }
        Some(Meaning::Constant(_)) => Err(ElabFault::NotAssignable(place)),
        Some(Meaning::Other) => Err(ElabFault::NotAssignable(place)),
    }
}

/// Whether each name in a target is a wire that may be driven, and each index a constant.
#[cycle(drives)]
#[tactic(auto, using(crate::proofs::DriveForms::forms), unfolding(crate::specs::Targets::passes, elab_names::specs::Answers::and_then))]
fn may_drive(alloc: Global, e: &Expr, scope: &Scope) -> Result<(), ElabFault>
    ensures { Answers (λ u. u) result (may_drive (frames_of scope.now) e.now) }
{
    match e {
        Expr::Name(place, name) => {
            drivable(alloc, *place, name.as_slice(), scope)?;
            Ok(())
        }
        Expr::Index(place, name, at) => {
            drivable(alloc, *place, name.as_slice(), scope)?;
            constant(alloc, at.get(), scope)?;
            Ok(())
        }
        Expr::Select(_, place, name, first, second) => {
            drivable(alloc, *place, name.as_slice(), scope)?;
            constant(alloc, first.get(), scope)?;
            constant(alloc, second.get(), scope)?;
            Ok(())
        }
        Expr::Concat(_, members) => all_may_drive(alloc, members.as_slice(), scope),
        Expr::Number(_, _)
        | Expr::Brackets(_, _)
        | Expr::Repeat(_, _, _)
        | Expr::Unary(_, _, _)
        | Expr::Binary(_, _, _, _)
        | Expr::Conditional(_, _, _, _) => Ok(()),
    }
}

/// The same of the members of a concatenation.
#[cycle(drives)]
fn all_may_drive(alloc: Global, members: &[Expr], scope: &Scope) -> Result<(), ElabFault>
    ensures { Answers (λ u. u) result (threaded (λ u x. may_drive (frames_of scope.now) x) tt members.now) }
{
    for member in members {
        match may_drive(alloc, member, scope) {
            Ok(()) => {}
            Err(fault) => return Err(fault),
        }
    }
    Ok(())
}

/// What an `assign`, a gate or an instance drives, in the flat design: a wire that is no input port of its module, a constant
/// select of one, or a concatenation of these.
///
/// # Errors
/// `NotAssignable` at any other name and at any other form of expression, `Undeclared` at a name that is not declared,
/// `Const(NotConstant)` at a signal in an index, and what else `target_in` and `constant` answer.
#[tactic(auto, unfolding(crate::specs::Targets::assigned, elab_names::specs::Answers::and_then))]
pub fn assigned(alloc: Global, e: &Expr, scope: &Scope) -> Result<Expr, ElabFault>
    ensures { Answers (λ t. t) result (assigned (frames_of scope.now) e.now) }
{
    let target = target_in(alloc, e, scope)?;
    may_drive(alloc, e, scope)?;
    Ok(target)
}
