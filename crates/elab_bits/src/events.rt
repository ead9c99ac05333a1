//! What processes wait for.
ghost use Rattle.std.specs.Prelude.{◌≡◌, ◌++◌, take, OnOk};
ghost use Rattle.std.specs.List.{flat_map, list_any};
ghost use Rattle.elab_bits.specs.Selects.{all_bits};
ghost use Rattle.elab_bits.specs.Processes.{control_reads, event_reads, has_edges, is_edge, watched};

use crate::readers::{put_indexed, put_reads};
use crate::selects::all_bits;
use crate::touch::{Touch, put};
use design_form::Design;
use sqlite_items::Boxed;
use std::alloc::{AllocError, Global};
use vlog_tree::{Control, Edge, Event, Expr, Ident};

/// Whether an event is an edge.
#[tactic(auto, unfolding(crate::specs::Processes::is_edge))]
fn is_edge(edge: Edge) -> bool
    ensures { result ≡ is_edge edge }
{
    match edge {
        Edge::Any => false,
        Edge::Rising => true,
        Edge::Falling => true,
    }
}

/// Whether one of some events is an edge.
fn any_edge(events: &[Event]) -> bool
    ensures { result ≡ list_any (λ e. is_edge e.edge) events.now }
{
    for event in events {
        if is_edge(event.edge) {
            return true;
        }
    }
    false
}

/// Whether a process waits for an edge.
#[tactic(auto, unfolding(crate::specs::Processes::has_edges))]
pub(crate) fn has_edges(control: &Control) -> bool
    ensures { result ≡ has_edges control.now }
{
    match control {
        Control::Reads => false,
        Control::Events(events) => any_edge(events.as_slice()),
    }
}

/// The least significant bit of a name.
fn lowest<'a>(design: &'a Design, name: &[u8]) -> &'a [u32]
    ensures { result.now ≡ take 1 (all_bits design.now.signals name.now) }
{
    let bits = all_bits(design, name);
    if bits.is_empty() {
        return bits;
    }
    let (first, _) = bits.split_at(1);
    first
}

/// The bits of a name, or of a bit of it.
#[tactic(auto, using(std::proofs::lemmas::List::append_assoc), unfolding(crate::specs::Processes::watched))]
fn put_watched(
    alloc: Global,
    design: &Design,
    name: &Ident,
    index: &Option<Boxed<Expr>>,
    touches: &mut Vec<Touch>,
) -> Result<(), AllocError>
    ensures { OnOk result (touches.new.items ≡ touches.old.items ++ watched design.now.signals name.now index.now) }
{
    match index {
        None => put(touches, name.place, lowest(design, name.name.as_slice())),
        Some(at) => {
            let at = at.get();
            put_indexed(alloc, design, name.place, name.name.as_slice(), at, touches)?;
            put_reads(alloc, design, at, touches)
        }
    }
}

/// The bits of an event, if it is an edge.
#[tactic(auto, unfolding(crate::specs::Processes::event_reads))]
fn put_event(
    alloc: Global,
    design: &Design,
    event: &Event,
    touches: &mut Vec<Touch>,
) -> Result<(), AllocError>
    ensures { OnOk result (touches.new.items ≡ touches.old.items ++ event_reads design.now.signals event.now) }
{
    if is_edge(event.edge) {
        return put_watched(alloc, design, &event.name, &event.index, touches);
    }
    Ok(())
}

/// The bits of some events.
fn put_events(
    alloc: Global,
    design: &Design,
    events: &[Event],
    touches: &mut Vec<Touch>,
) -> Result<(), AllocError>
    ensures { OnOk result (touches.new.items ≡ touches.old.items ++ flat_map (event_reads design.now.signals) events.now) }
{
    for event in events {
        put_event(alloc, design, event, touches)?;
    }
    Ok(())
}

/// The bits of the edges that a process waits for, behind what is there.
///
/// # Errors
/// Want of memory.
#[tactic(auto, unfolding(crate::specs::Processes::control_reads))]
pub(crate) fn put_control(
    alloc: Global,
    design: &Design,
    control: &Control,
    touches: &mut Vec<Touch>,
) -> Result<(), AllocError>
    ensures { OnOk result (touches.new.items ≡ touches.old.items ++ control_reads design.now.signals control.now) }
{
    match control {
        Control::Reads => Ok(()),
        Control::Events(events) => put_events(alloc, design, events.as_slice(), touches),
    }
}
