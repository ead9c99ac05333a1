//! Processes by their events and bodies.
ghost use Rattle.std.specs.Prelude.{◌≡◌, not, IfOk};
ghost use Rattle.std.specs.Option.{option_map};
ghost use Rattle.std.specs.List.{list_any};
ghost use Rattle.flop_shapes.specs.Shapes.{are_one, form_of, Reset, is_edge, is_rising, is_tested, tested_form, two_edges, edges};
ghost use Rattle.flop_shapes.specs.Answers.{a_bit, a_form, Answers};

use crate::bits::{event_bit, is_one_bit, same_bit, same_sign};
use crate::bodies::chosen;
use crate::fault::ShapeFault;
use crate::form::ProcessShape;
use crate::reference::Reference;
use crate::tests::test;
use design_form::{Design, Process};
use std::alloc::{AllocError, Global};
use vlog_tree::{Control, Edge, Event, Stmt};

#[tactic(auto, unfolding(crate::specs::Shapes::is_edge))]
fn is_edge(edge: Edge) -> bool
    ensures { result ≡ is_edge edge }
{
    match edge {
        Edge::Any => false,
        Edge::Rising | Edge::Falling => true,
    }
}

#[tactic(auto, unfolding(crate::specs::Shapes::is_rising))]
fn is_rising(edge: Edge) -> bool
    ensures { result ≡ is_rising edge }
{
    match edge {
        Edge::Rising => true,
        Edge::Any | Edge::Falling => false,
    }
}

/// Whether an event has an edge.
fn any_edge(events: &[Event]) -> bool
    ensures { result ≡ list_any (λ e. is_edge e.edge) events.now }
{
    for event in events {
        if is_edge(event.edge) {
            return true;
        }
    }
    false
}

/// Whether an event has no edge.
fn any_level(events: &[Event]) -> bool
    ensures { result ≡ list_any (λ e. not (is_edge e.edge)) events.now }
{
    for event in events {
        if !is_edge(event.edge) {
            return true;
        }
    }
    false
}

/// Whether a test asks for the level that an event's edge leads to, of one bit.
#[tactic(auto, unfolding(crate::specs::Shapes::is_tested, crate::specs::Shapes::is_tested_as))]
fn is_tested(
    alloc: Global,
    design: &Design,
    event: &Event,
    tested: Reference<'_>,
    high: bool,
) -> Result<bool, AllocError>
    ensures { IfOk result (λ r. r ≡ is_tested design.now event.now (a_bit tested.entry, high)) }
{
    match event_bit(alloc, event)? {
        Some(bit) => Ok(
            (same_bit(tested, bit) && same_sign(high, is_rising(event.edge)))
                && is_one_bit(design, bit),
        ),
        None => Ok(false),
    }
}

/// Whether two events are of one name.
#[tactic(auto, unfolding(crate::specs::Shapes::are_one, crate::specs::Shapes::are_one_in))]
fn are_one(alloc: Global, first: &Event, second: &Event) -> Result<bool, AllocError>
    ensures { IfOk result (λ r. r ≡ are_one first.now second.now) }
{
    let Some(one) = event_bit(alloc, first)? else {
        return Ok(false);
    };
    let Some(other) = event_bit(alloc, second)? else {
        return Ok(false);
    };
    Ok(same_bit(one, other))
}

/// A reset and its clock.
fn with_reset<'a>(
    clock: &'a Event,
    reset: &'a Event,
    reset_part: &'a Stmt,
    clocked_part: &'a Stmt,
) -> ProcessShape<'a>
    ensures { a_form result ≡ Reset clock.now reset.now (is_rising reset.now.edge) reset_part.now clocked_part.now }
{
    ProcessShape::Reset {
        clock,
        reset,
        high: is_rising(reset.edge),
        reset_part,
        clocked_part,
    }
}

/// Two events and a test: the tested one is the reset, the other one the clock.
#[tactic(auto, unfolding(crate::specs::Shapes::tested_form))]
fn tested_form<'a>(
    alloc: Global,
    design: &Design,
    events: (&'a Event, &'a Event),
    tested: (Reference<'_>, bool),
    sides: (&'a Stmt, &'a Stmt),
) -> Result<Option<ProcessShape<'a>>, AllocError>
    ensures { IfOk result (λ r. option_map a_form r ≡ tested_form design.now events.entry.0.now events.entry.1.now (a_bit tested.entry.0, tested.entry.1) sides.entry.0.now sides.entry.1.now) }
{
    let (first, second) = events;
    let (bit, high) = tested;
    let (yes, no) = sides;
    if are_one(alloc, first, second)? {
        return Ok(None);
    }
    if is_tested(alloc, design, first, bit, high)? {
        return Ok(Some(with_reset(second, first, yes, no)));
    }
    if is_tested(alloc, design, second, bit, high)? {
        return Ok(Some(with_reset(first, second, yes, no)));
    }
    Ok(None)
}

/// Two events with edges.
#[tactic(auto, unfolding(crate::specs::Shapes::two_edges, crate::specs::Shapes::with_choice, crate::specs::Shapes::with_test))]
fn two_edges<'a>(
    alloc: Global,
    design: &Design,
    first: &'a Event,
    second: &'a Event,
    body: &'a Stmt,
) -> Result<Option<ProcessShape<'a>>, AllocError>
    ensures { IfOk result (λ r. option_map a_form r ≡ two_edges design.now first.now second.now body.now) }
{
    let Some((condition, yes, no)) = chosen(body) else {
        return Ok(None);
    };
    match test(alloc, condition)? {
        Some(tested) => tested_form(alloc, design, (first, second), tested, (yes, no)),
        None => Ok(None),
    }
}

/// Events that all have edges.
#[tactic(auto, unfolding(crate::specs::Shapes::edges, crate::specs::Shapes::or_fault))]
fn edges<'a>(
    alloc: Global,
    design: &Design,
    process: &'a Process,
    events: &'a [Event],
) -> Result<ProcessShape<'a>, ShapeFault>
    ensures { Answers result (edges design.now process.now events.now) }
{
    match events {
        [clock] => Ok(ProcessShape::Clocked {
            clock,
            body: &process.body,
        }),
        [first, second] => match two_edges(alloc, design, first, second, &process.body) {
            Ok(Some(shape)) => Ok(shape),
            Ok(None) => Err(ShapeFault::ResetShape(process.place)),
            Err(_) => Err(ShapeFault::Memory),
        },
        _ => Err(ShapeFault::ResetShape(process.place)),
    }
}

/// What a process of a design is.
///
/// The memory that it takes is for the values of indices alone.
///
/// # Errors
/// `ClockShape` where events with and without edges are mixed. `ResetShape` where three or more events have edges, or two
/// whose body is no `if (test) .. else ..`, alone or in one `begin .. end`, with a test of one of them at the level that its
/// edge leads to; also where both are of one name, and where the tested one is a whole vector.
#[tactic(auto, unfolding(crate::specs::Shapes::form_of, crate::specs::Shapes::controlled, crate::specs::Shapes::events_form))]
pub fn shape_of<'a>(
    alloc: Global,
    design: &Design,
    process: &'a Process,
) -> Result<ProcessShape<'a>, ShapeFault>
    ensures { Answers result (form_of design.now process.now) }
{
    match &process.control {
        Control::Reads => Ok(ProcessShape::Combinational),
        Control::Events(events) => {
            let events = events.as_slice();
            if !any_edge(events) {
                return Ok(ProcessShape::Combinational);
            }
            if any_level(events) {
                return Err(ShapeFault::ClockShape(process.place));
            }
            edges(alloc, design, process, events)
        }
    }
}
