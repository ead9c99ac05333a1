//! Reads processes: what they do, and at which events.

ghost use Rattle.std.specs.Prelude.{◌≡◌, IfOk};
ghost use Rattle.std.specs.Option.{option_map};
ghost use Rattle.thin_tree.specs.Form.{is_nonblocking, load_of, branches_of, choice_of, event_name, falls, is_rising, two_events, events_of, process_of, is_absent};
ghost use Rattle.thin_tree.specs.Postfix.{expression_of};
ghost use Rattle.thin_tree.specs.Written.{a_process};

use crate::expressions::{bit, name, test, value};
use crate::steps::Expression;
use crate::tree::Process;
use std::alloc::{AllocError, Global};
use vlog_tree::{Assigns, Control, Edge, Event, Expr, Stmt};

#[tactic(auto, unfolding(crate::specs::Form::is_nonblocking))]
fn is_nonblocking(by: Assigns) -> bool
    ensures { result ≡ is_nonblocking by }
{
    match by {
        Assigns::Blocking => false,
        Assigns::Nonblocking => true,
    }
}

/// NAME <= VALUE;
#[tactic(auto, unfolding(crate::specs::Form::load_of, crate::specs::Form::load_in, crate::specs::Form::and_then, crate::specs::Form::where_so))]
fn load(s: &Stmt) -> Option<(&[u8], &Expr)>
    ensures { option_map (λ l. (l.0.now, l.1.now)) result ≡ load_of s.now }
{
    match s {
        Stmt::Assign(_, target, by, value) => {
            let name = name(target)?;
            if is_nonblocking(*by) {
                Some((name, value))
            } else {
                None
            }
        }
        _ => None,
    }
}

/// What a process does behind its events.
#[derive(Drop)]
struct Branches<'a> {
    negated: bool,
    tested: &'a [u8],
    cleared: &'a [u8],
    value: bool,
    loaded: &'a [u8],
    data: Expression<'a>,
}

/// The branches of `if (TEST) YES else NO`.
#[tactic(auto, unfolding(crate::specs::Form::branches_of, crate::specs::Form::and_then))]
fn two_branches<'a>(
    alloc: Global,
    condition: &'a Expr,
    yes: &'a Stmt,
    no: &'a Stmt,
) -> Result<Option<Branches<'a>>, AllocError>
    ensures { IfOk result (λ r. option_map (λ b. ((b.negated, b.tested.now), (b.cleared.now, b.value), (b.loaded.now, expression_of b.data))) r ≡ branches_of condition.now yes.now no.now) }
{
    let Some((negated, tested)) = test(condition) else {
        return Ok(None);
    };
    let Some((cleared, clear)) = load(yes) else {
        return Ok(None);
    };
    let Some(bit) = bit(clear) else {
        return Ok(None);
    };
    let Some((loaded, next)) = load(no) else {
        return Ok(None);
    };
    let Some(data) = value(alloc, next)? else {
        return Ok(None);
    };
    Ok(Some(Branches {
        negated,
        tested,
        cleared,
        value: bit,
        loaded,
        data,
    }))
}

/// if ([!]TESTED) CLEARED <= VALUE; else LOADED <= DATA;
#[tactic(auto, unfolding(crate::specs::Form::choice_of, crate::specs::Form::choice_in))]
fn choice<'a>(alloc: Global, s: &'a Stmt) -> Result<Option<Branches<'a>>, AllocError>
    ensures { IfOk result (λ r. option_map (λ b. ((b.negated, b.tested.now), (b.cleared.now, b.value), (b.loaded.now, expression_of b.data))) r ≡ choice_of s.now) }
{
    match s {
        Stmt::If(_, condition, yes, Some(no)) => two_branches(
            alloc,
            condition,
            yes.get(),
            no.get(),
        ),
        _ => Ok(None),
    }
}

/// A name without an index.
#[tactic(auto, unfolding(crate::specs::Form::event_name, crate::specs::Form::is_absent, crate::specs::Form::where_so))]
fn event_name(e: &Event) -> Option<&[u8]>
    ensures { option_map (λ n. n.now) result ≡ event_name e.now }
{
    match &e.index {
        None => Some(e.name.name.as_slice()),
        Some(_) => None,
    }
}

/// Whether the event is a `negedge`, of the two that are edges.
#[tactic(auto, unfolding(crate::specs::Form::falls))]
fn falls(edge: Edge) -> Option<bool>
    ensures { result ≡ falls edge }
{
    match edge {
        Edge::Rising => Some(false),
        Edge::Falling => Some(true),
        Edge::Any => None,
    }
}

#[tactic(auto, unfolding(crate::specs::Form::is_rising))]
fn is_rising(edge: Edge) -> bool
    ensures { result ≡ is_rising edge }
{
    match edge {
        Edge::Rising => true,
        _ => false,
    }
}

/// posedge CLOCK or EDGE EVENT
#[tactic(auto, unfolding(crate::specs::Form::two_events, crate::specs::Form::and_then, crate::specs::Form::where_so))]
fn two_events<'a>(first: &'a Event, second: &'a Event) -> Option<(&'a [u8], bool, &'a [u8])>
    ensures { option_map (λ e. (e.0.now, e.1, e.2.now)) result ≡ two_events first.now second.now }
{
    let clock = event_name(first)?;
    let event = event_name(second)?;
    let falling = falls(second.edge)?;
    if is_rising(first.edge) {
        Some((clock, falling, event))
    } else {
        None
    }
}

/// The two events of a process.
#[tactic(auto, unfolding(crate::specs::Form::events_of, crate::specs::Form::events_in))]
fn events(c: &Control) -> Option<(&[u8], bool, &[u8])>
    ensures { option_map (λ e. (e.0.now, e.1, e.2.now)) result ≡ events_of c.now }
{
    match c {
        Control::Reads => None,
        Control::Events(all) => match all.as_slice() {
            [first, second] => two_events(first, second),
            _ => None,
        },
    }
}

/// A process of the form.
#[tactic(auto, unfolding(crate::specs::Form::process_of, crate::specs::Form::and_then))]
pub(crate) fn process<'a>(
    alloc: Global,
    control: &'a Control,
    body: &'a Stmt,
) -> Result<Option<Process<'a>>, AllocError>
    ensures { IfOk result (λ r. option_map a_process r ≡ process_of control.now body.now) }
{
    let Some((clock, falling, event)) = events(control) else {
        return Ok(None);
    };
    let Some(found) = choice(alloc, body)? else {
        return Ok(None);
    };
    let Branches {
        negated,
        tested,
        cleared,
        value,
        loaded,
        data,
    } = found;
    Ok(Some(Process {
        clock,
        falling,
        event,
        negated,
        tested,
        cleared,
        value,
        loaded,
        data,
    }))
}
