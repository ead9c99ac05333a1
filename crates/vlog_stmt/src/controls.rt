//! What a process waits for (IEEE 1364-2005, A.6.5): what stands behind `@`.

ghost use Rattle.std.specs.Prelude.{◌≡◌};
ghost use Rattle.vlog_expr.specs.Reading.{Reads, first};
ghost use Rattle.vlog_stmt.specs.Controls as spec;

use crate::lists::{Piece, many};
use crate::words::{boxed, ident, took};
use sqlite_items::{Boxed, Items};
use std::alloc::Global;
use vlog_expr::{Cursor, Stuck};
use vlog_tree::{Control, Edge, Event, Expr, fitted, sole};

/// [ "posedge" | "negedge" ]
#[tactic(auto, unfolding(crate::specs::Controls::edge, crate::specs::Controls::edge_if, crate::specs::Lists::known, crate::specs::Lists::known_by))]
fn edge_before(cursor: &mut Cursor<'_>) -> Result<Edge, Stuck>
    ensures { Reads (spec.edge cursor.old) result cursor.new }
{
    if cursor.sees_word(b"posedge") {
        cursor.advance();
        return Ok(Edge::Rising);
    }
    if cursor.sees_word(b"negedge") {
        cursor.advance();
        return Ok(Edge::Falling);
    }
    Ok(Edge::Any)
}

/// [ "[" expr "]" ]
#[tactic(auto, unfolding(crate::specs::Controls::index))]
fn index(alloc: Global, cursor: &mut Cursor<'_>, room: usize) -> Result<Option<Boxed<Expr>>, Stuck>
    ensures { Reads (spec.index room cursor.old) result cursor.new }
{
    if !cursor.sees(b"[") {
        return Ok(None);
    }
    if room == 0 {
        return Err(Stuck::Deep);
    }
    cursor.expect(b"[")?;
    let index = boxed(alloc, cursor, room)?;
    cursor.expect(b"]")?;
    Ok(Some(index))
}

/// [ "posedge" | "negedge" ] id [ "[" expr "]" ]
#[tactic(auto, unfolding(crate::specs::Controls::event))]
fn one_event(alloc: Global, cursor: &mut Cursor<'_>, depth: usize) -> Result<Event, Stuck>
    ensures { Reads (spec.event depth cursor.old) result cursor.new }
{
    if depth == 0 {
        return Err(Stuck::Deep);
    }
    let edge = edge_before(cursor)?;
    let name = ident(alloc, cursor)?;
    let index = index(alloc, cursor, depth - 1)?;
    Ok(Event { edge, name, index })
}

/// `or` or a comma.
#[tactic(auto, unfolding(crate::specs::Controls::is_between))]
fn is_between(cursor: &Cursor<'_>) -> bool
    ensures { result ≡ spec.is_between (first cursor.now) }
{
    cursor.sees_word(b"or") || cursor.sees(b",")
}

/// An event behind `or` or a comma.
#[derive(Clone, Copy)]
struct Further {
    alloc: Global,
    depth: usize,
}

impl Piece for Further {
    type Out = Event;

    ghost ready = { λ s. Unit {0} };

    ghost goes_on = { λ s. spec.is_between };

    ghost reader = { λ s. spec.further_event s.depth };

    fn goes_on(&self, cursor: &Cursor<'_>) -> bool {
        is_between(cursor)
    }

    #[tactic(auto, unfolding(crate::specs::Controls::further_event))]
    fn read(&self, cursor: &mut Cursor<'_>) -> Result<Event, Stuck> {
        if !is_between(cursor) {
            return Err(Stuck::Wrong);
        }
        cursor.advance();
        one_event(self.alloc, cursor, self.depth)
    }
}

/// ev { ( "or" | "," ) ev }
#[tactic(auto, unfolding(crate::specs::Controls::events), using(crate::proofs::ControlsSteady::further_event_eats))]
fn events(alloc: Global, cursor: &mut Cursor<'_>, depth: usize) -> Result<Items<Event>, Stuck>
    ensures { Reads (spec.events depth cursor.old) result cursor.new }
{
    let first = one_event(alloc, cursor, depth)?;
    let mut found = sole(alloc, first)?;
    let further = Further { alloc, depth };
    many(&further, cursor, &mut found)?;
    Ok(fitted(alloc, found)?)
}

/// ( "*" | ev { ( "or" | "," ) ev } ) ")"
#[tactic(auto, unfolding(crate::specs::Controls::in_brackets))]
fn in_brackets(alloc: Global, cursor: &mut Cursor<'_>, depth: usize) -> Result<Control, Stuck>
    ensures { Reads (spec.in_brackets depth cursor.old) result cursor.new }
{
    if took(cursor, b"*") {
        cursor.expect(b")")?;
        return Ok(Control::Reads);
    }
    let events = events(alloc, cursor, depth)?;
    cursor.expect(b")")?;
    Ok(Control::Events(events))
}

/// What stands behind `@`, no deeper than `depth`, in front of a cursor.
#[tactic(auto, unfolding(crate::specs::Controls::control))]
pub fn control_at(alloc: Global, cursor: &mut Cursor<'_>, depth: usize) -> Result<Control, Stuck>
    ensures { Reads (spec.control depth cursor.old) result cursor.new }
{
    if took(cursor, b"*") {
        return Ok(Control::Reads);
    }
    cursor.expect(b"(")?;
    in_brackets(alloc, cursor, depth)
}
