//! What a name means where only some meanings serve, and the faults where it has another one.
ghost use Rattle.std.specs.Prelude.{◌≡◌, ◌⊎◌};
ghost use Rattle.vlog_const.specs.declared.answer.ConstFault.TheVariants.{NotConstant};
ghost use Rattle.design_form.specs.declared.signal.SignalKind.TheVariants.{Wire, Register, Integer};
ghost use Rattle.elab_names.specs.declared.fault.ElabFault.TheVariants.{Const, Memory, Undeclared};
ghost use Rattle.elab_names.specs.Answers.{Answers};
ghost use Rattle.elab_names.specs.Expressions.{meant};
ghost use Rattle.elab_names.specs.Targets.{assignable};
ghost use Rattle.elab_names.specs.Statements.{changing, counter, of_kind};
ghost use Rattle.elab_names.specs.Meanings.{found, frames_of};

use crate::fault::ElabFault;
use crate::meaning::{Known, Meaning};
use crate::scope::Scope;
use design_form::SignalKind;
use rdc_outside::{Place, Seq};
use std::alloc::Global;
use vlog_const::ConstFault;

/// A name that is not declared.
fn undeclared(alloc: Global, name: &[u8], place: Place) -> ElabFault
    ensures { (result ≡ Memory) ⊎ (result ≡ Undeclared name.now place) }
{
    match name.to_vec(alloc) {
        Ok(name) => ElabFault::Undeclared(Seq::from_vec(name), place),
        Err(_) => ElabFault::Memory,
    }
}

/// What is no constant.
pub(crate) fn not_constant(place: Place) -> ElabFault
    ensures { result ≡ Const (NotConstant place) }
{
    ElabFault::Const(ConstFault::NotConstant(place))
}

/// What a name means that has a value.
#[tactic(auto, unfolding(crate::specs::Expressions::meant))]
pub(crate) fn meant<'a>(
    alloc: Global,
    place: Place,
    name: &[u8],
    scope: &'a Scope,
) -> Result<&'a Meaning, ElabFault>
    ensures { Answers (λ m. m.now) result (meant place name.now (found (frames_of scope.now) name.now)) }
{
    match scope.meaning(name) {
        None => Err(undeclared(alloc, name, place)),
        Some(Meaning::Other) => Err(not_constant(place)),
        Some(meaning) => Ok(meaning),
    }
}

/// The signal that a name means.
#[tactic(auto, unfolding(crate::specs::Targets::assignable))]
pub(crate) fn assignable<'a>(
    alloc: Global,
    place: Place,
    name: &[u8],
    scope: &'a Scope,
) -> Result<&'a Known, ElabFault>
    ensures { Answers (λ s. s.now) result (assignable place name.now (found (frames_of scope.now) name.now)) }
{
    match scope.meaning(name) {
        None => Err(undeclared(alloc, name, place)),
        Some(Meaning::Signal(signal)) => Ok(signal),
        Some(Meaning::Constant(_)) => Err(ElabFault::NotAssignable(place)),
        Some(Meaning::Other) => Err(ElabFault::NotAssignable(place)),
    }
}

/// The signal that an event is a change of.
#[tactic(auto, unfolding(crate::specs::Statements::changing))]
pub(crate) fn changing<'a>(
    alloc: Global,
    place: Place,
    name: &[u8],
    scope: &'a Scope,
) -> Result<&'a Known, ElabFault>
    ensures { Answers (λ s. s.now) result (changing place name.now (found (frames_of scope.now) name.now)) }
{
    match scope.meaning(name) {
        None => Err(undeclared(alloc, name, place)),
        Some(Meaning::Signal(signal)) => Ok(signal),
        Some(Meaning::Constant(_)) => Err(not_constant(place)),
        Some(Meaning::Other) => Err(not_constant(place)),
    }
}

/// A signal, where it is an integer.
#[tactic(auto, unfolding(crate::specs::Statements::of_kind))]
fn of_kind<'a>(place: Place, signal: &'a Known, kind: SignalKind) -> Result<&'a Known, ElabFault>
    ensures { Answers (λ s. s.now) result (of_kind place signal.now kind) }
{
    match kind {
        SignalKind::Integer => Ok(signal),
        SignalKind::Wire => Err(not_constant(place)),
        SignalKind::Register => Err(not_constant(place)),
    }
}

/// The integer that a name means.
#[tactic(auto, unfolding(crate::specs::Statements::counter))]
pub(crate) fn counter<'a>(
    alloc: Global,
    place: Place,
    name: &[u8],
    scope: &'a Scope,
) -> Result<&'a Known, ElabFault>
    ensures { Answers (λ s. s.now) result (counter place name.now (found (frames_of scope.now) name.now)) }
{
    match scope.meaning(name) {
        None => Err(undeclared(alloc, name, place)),
        Some(Meaning::Signal(signal)) => of_kind(place, signal, signal.kind),
        Some(Meaning::Constant(_)) => Err(not_constant(place)),
        Some(Meaning::Other) => Err(not_constant(place)),
    }
}
