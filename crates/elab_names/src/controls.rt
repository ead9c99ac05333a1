//! What a process waits for, in a scope.
ghost use Rattle.std.specs.Prelude.{◌≡◌, map};
ghost use Rattle.std.specs.Option.{option_map};
ghost use Rattle.elab_names.specs.Answers.{Answers, gathered, optional};
ghost use Rattle.elab_names.specs.Expressions.{put_in};
ghost use Rattle.elab_names.specs.Meanings.{frames_of};
ghost use Rattle.elab_names.specs.Statements.{changing_in, control_in, event_in};

use crate::answers::changing;
use crate::expressions::put_in;
use crate::fault::ElabFault;
use crate::scope::Scope;
use sqlite_items::{Boxed, Items};
use std::alloc::Global;
use vlog_tree::{Control, Event, Expr, Ident, Name};

/// The name of an event.
#[tactic(auto, unfolding(crate::specs::Statements::changing_in, crate::specs::Answers::and_then))]
fn changing_in(alloc: Global, name: &Ident, scope: &Scope) -> Result<Ident, ElabFault>
    ensures { Answers (λ i. i) result (changing_in (frames_of scope.now) name.now) }
{
    let signal = changing(alloc, name.place, name.name.as_slice(), scope)?;
    Ok(Ident {
        place: name.place,
        name: Name::from_slice(alloc, signal.printed.as_slice())?,
    })
}

/// The index of an event, where one is written.
#[tactic(auto, unfolding(crate::specs::Answers::optional, crate::specs::Answers::and_then))]
fn index_in(
    alloc: Global,
    index: &Option<Boxed<Expr>>,
    scope: &Scope,
) -> Result<Option<Boxed<Expr>>, ElabFault>
    ensures { Answers (λ o. o) result (optional (option_map (put_in (frames_of scope.now)) index.now)) }
{
    match index {
        None => Ok(None),
        Some(index) => {
            let index = put_in(alloc, index.get(), scope)?;
            Ok(Some(Boxed::new(alloc, index)?))
        }
    }
}

/// An event.
#[tactic(auto, unfolding(crate::specs::Statements::event_in, crate::specs::Answers::and_then))]
fn event_in(alloc: Global, event: &Event, scope: &Scope) -> Result<Event, ElabFault>
    ensures { Answers (λ e. e) result (event_in (frames_of scope.now) event.now) }
{
    let name = changing_in(alloc, &event.name, scope)?;
    let index = index_in(alloc, &event.index, scope)?;
    Ok(Event {
        edge: event.edge,
        name,
        index,
    })
}

/// Events.
#[tactic(auto, using(crate::proofs::Lists::gathers))]
fn events_in(alloc: Global, events: &[Event], scope: &Scope) -> Result<Items<Event>, ElabFault>
    ensures { Answers (λ es. es) result (gathered (map (event_in (frames_of scope.now)) events.now)) }
{
    let mut out = Items::from_vec(Vec::with_capacity(alloc, events.len())?);
    for event in events {
        match event_in(alloc, event, scope) {
            Ok(event) => match out.push(event) {
                Ok(()) => {}
                Err(_) => return Err(ElabFault::Memory),
            },
            Err(fault) => return Err(fault),
        }
    }
    Ok(out)
}

/// What a process waits for, in a scope: each event's name as it is printed, and its index.
///
/// # Errors
/// Of the first part in the order of reading: `Undeclared` at a name that is not declared, `Const(NotConstant)` at one that
/// is no signal, and the faults of `put_in` in an index.
#[tactic(auto, unfolding(crate::specs::Statements::control_in, crate::specs::Answers::and_then))]
pub fn control_in(alloc: Global, control: &Control, scope: &Scope) -> Result<Control, ElabFault>
    ensures { Answers (λ c. c) result (control_in (frames_of scope.now) control.now) }
{
    match control {
        Control::Reads => Ok(Control::Reads),
        Control::Events(events) => Ok(Control::Events(events_in(alloc, events.as_slice(), scope)?)),
    }
}
