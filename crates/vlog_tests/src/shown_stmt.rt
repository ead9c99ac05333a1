//! Statements, controls and stops as texts, for the tests.

use crate::shown_expr::{bytes_shown, show, text_of};
use rdc_outside::Place;
use sqlite_items::Boxed;
use std::alloc::{AllocError, Global};
use vlog_expr::{Cursor, Stuck};
use vlog_lex::lex;
use vlog_stmt::{control_at, loop_header, stmt};
use vlog_tree::{Arm, Assigns, Control, Edge, Event, Expr, Ident, Loop, Matching, Stmt};

// Where a statement begins.
fn column(alloc: Global, place: Place, out: &mut String) -> Result<(), AllocError> {
    let col = place.col;
    let shown = format!(in alloc; "@{col}")?;
    out.push_str(shown.as_str())
}

// A blank and an expression.
fn value(alloc: Global, e: &Expr, out: &mut String) -> Result<(), AllocError> {
    out.push_str(" ")?;
    show(alloc, e, 300, out)
}

fn head_shown(alloc: Global, head: &Loop, out: &mut String) -> Result<(), AllocError> {
    out.push_str(" ")?;
    bytes_shown(head.variable.name.as_slice(), out)?;
    value(alloc, head.start.get(), out)?;
    value(alloc, head.test.get(), out)?;
    out.push_str(" ")?;
    bytes_shown(head.stepped.name.as_slice(), out)?;
    value(alloc, head.step.get(), out)
}

// A word, and where the statement begins.
fn spot(alloc: Global, word: &str, place: Place, out: &mut String) -> Result<(), AllocError> {
    out.push_str(word)?;
    column(alloc, place, out)
}

fn assigned(alloc: Global, target: &Expr, e: &Expr, out: &mut String) -> Result<(), AllocError> {
    value(alloc, target, out)?;
    value(alloc, e, out)?;
    out.push_str(")")
}

fn name_shown(name: &Option<Ident>, out: &mut String) -> Result<(), AllocError> {
    let Some(name) = name else {
        return Ok(());
    };
    out.push_str(" :")?;
    bytes_shown(name.name.as_slice(), out)
}

// A statement in prefix form with the column where it begins, down to some depth.
#[cycle(tell)]
fn tell(alloc: Global, s: &Stmt, depth: usize, out: &mut String) -> Result<(), AllocError> {
    if depth == 0 {
        return Ok(());
    }
    match s {
        Stmt::Empty(place) => spot(alloc, ";", *place, out),
        Stmt::Block(place, name, body) => {
            spot(alloc, "(begin", *place, out)?;
            name_shown(name, out)?;
            tell_all(alloc, body.as_slice(), depth - 1, out)
        }
        Stmt::Assign(place, target, by, e) => {
            let word = match by {
                Assigns::Blocking => "(=",
                Assigns::Nonblocking => "(<=",
            };
            spot(alloc, word, *place, out)?;
            assigned(alloc, target, e, out)
        }
        Stmt::If(place, test, yes, no) => {
            spot(alloc, "(if", *place, out)?;
            value(alloc, test, out)?;
            tell_sides(alloc, yes.get(), no, depth - 1, out)
        }
        Stmt::Case(place, matching, e, arms) => {
            let word = match matching {
                Matching::Exact => "(case",
                Matching::Wildcard => "(casez",
            };
            spot(alloc, word, *place, out)?;
            value(alloc, e, out)?;
            tell_arms(alloc, arms.as_slice(), depth - 1, out)
        }
        Stmt::For(place, head, body) => {
            spot(alloc, "(for", *place, out)?;
            head_shown(alloc, head, out)?;
            tell_next(alloc, body.get(), depth - 1, out)?;
            out.push_str(")")
        }
    }
}

#[cycle(tell)]
fn tell_sides(
    alloc: Global,
    yes: &Stmt,
    no: &Option<Boxed<Stmt>>,
    depth: usize,
    out: &mut String,
) -> Result<(), AllocError> {
    tell_next(alloc, yes, depth, out)?;
    if let Some(no) = no {
        tell_next(alloc, no.get(), depth, out)?;
    }
    out.push_str(")")
}

#[cycle(tell)]
fn tell_next(alloc: Global, s: &Stmt, depth: usize, out: &mut String) -> Result<(), AllocError> {
    out.push_str(" ")?;
    tell(alloc, s, depth, out)
}

#[cycle(tell)]
fn tell_all(alloc: Global, ss: &[Stmt], depth: usize, out: &mut String) -> Result<(), AllocError> {
    for s in ss {
        tell_next(alloc, s, depth, out)?;
    }
    out.push_str(")")
}

#[cycle(tell)]
fn tell_arms(
    alloc: Global,
    arms: &[Arm<Boxed<Stmt>>],
    depth: usize,
    out: &mut String,
) -> Result<(), AllocError> {
    for arm in arms {
        out.push_str(" (")?;
        column(alloc, arm.place, out)?;
        labels_shown(alloc, arm.labels.as_slice(), out)?;
        out.push_str(" :")?;
        tell_next(alloc, arm.body.get(), depth, out)?;
        out.push_str(")")?;
    }
    out.push_str(")")
}

fn labels_shown(alloc: Global, labels: &[Expr], out: &mut String) -> Result<(), AllocError> {
    for label in labels {
        value(alloc, label, out)?;
    }
    Ok(())
}

fn event_shown(alloc: Global, event: &Event, out: &mut String) -> Result<(), AllocError> {
    out.push_str(match event.edge {
        Edge::Any => " ",
        Edge::Rising => " posedge ",
        Edge::Falling => " negedge ",
    })?;
    bytes_shown(event.name.name.as_slice(), out)?;
    match &event.index {
        None => Ok(()),
        Some(i) => {
            out.push_str(" at")?;
            value(alloc, i.get(), out)
        }
    }
}

fn events_shown(alloc: Global, events: &[Event], out: &mut String) -> Result<(), AllocError> {
    for event in events {
        event_shown(alloc, event, out)?;
    }
    Ok(())
}

// Why a reader stopped, and in front of which token.
fn stop_shown(alloc: Global, why: Stuck, cursor: &Cursor<'_>) -> Result<String, AllocError> {
    let word = match why {
        Stuck::Memory => "Memory",
        Stuck::Wrong => "Wrong",
        Stuck::Deep => "Deep",
    };
    if cursor.left() == 0 {
        return format!(in alloc; "{word} at the end");
    }
    let col = cursor.place().col;
    format!(in alloc; "{word} at {col}")
}

// How many tokens are left, behind what was shown.
fn left_shown(alloc: Global, cursor: &Cursor<'_>, out: &mut String) -> Result<(), AllocError> {
    let left = cursor.left();
    let shown = format!(in alloc; ", {left}")?;
    out.push_str(shown.as_str())
}

// A statement and what is left.
fn told(alloc: Global, s: &Stmt, cursor: &Cursor<'_>) -> Result<String, AllocError> {
    let mut out = String::new(alloc);
    tell(alloc, s, 300, &mut out)?;
    left_shown(alloc, cursor, &mut out)?;
    Ok(out)
}

// The statement that a line begins with and how many tokens it leaves; or where its reader stops.
pub(crate) fn statement(alloc: Global, room: usize, bytes: &[u8]) -> Result<String, AllocError> {
    let text = text_of(alloc, bytes)?;
    let Ok(tokens) = lex(alloc, &text) else {
        return String::from_str(alloc, "no tokens");
    };
    let mut cursor = Cursor::new(
        text.bytes.as_slice(),
        text.places.as_slice(),
        tokens.as_slice(),
    );
    match stmt(alloc, &mut cursor, room) {
        Err(why) => stop_shown(alloc, why, &cursor),
        Ok(s) => told(alloc, &s, &cursor),
    }
}

fn control_told(alloc: Global, found: &Control, cursor: &Cursor<'_>) -> Result<String, AllocError> {
    let mut out = String::new(alloc);
    match found {
        Control::Reads => out.push_str("*")?,
        Control::Events(events) => events_shown(alloc, events.as_slice(), &mut out)?,
    }
    left_shown(alloc, cursor, &mut out)?;
    Ok(out)
}

// The same of what stands behind `@`.
pub(crate) fn control(alloc: Global, depth: usize, bytes: &[u8]) -> Result<String, AllocError> {
    let text = text_of(alloc, bytes)?;
    let Ok(tokens) = lex(alloc, &text) else {
        return String::from_str(alloc, "no tokens");
    };
    let mut cursor = Cursor::new(
        text.bytes.as_slice(),
        text.places.as_slice(),
        tokens.as_slice(),
    );
    match control_at(alloc, &mut cursor, depth) {
        Err(why) => stop_shown(alloc, why, &cursor),
        Ok(found) => control_told(alloc, &found, &cursor),
    }
}

fn head_told(alloc: Global, head: &Loop, cursor: &Cursor<'_>) -> Result<String, AllocError> {
    let mut out = String::new(alloc);
    head_shown(alloc, head, &mut out)?;
    left_shown(alloc, cursor, &mut out)?;
    Ok(out)
}

// The same of what stands behind `for`.
pub(crate) fn header(alloc: Global, room: usize, bytes: &[u8]) -> Result<String, AllocError> {
    let text = text_of(alloc, bytes)?;
    let Ok(tokens) = lex(alloc, &text) else {
        return String::from_str(alloc, "no tokens");
    };
    let mut cursor = Cursor::new(
        text.bytes.as_slice(),
        text.places.as_slice(),
        tokens.as_slice(),
    );
    match loop_header(alloc, &mut cursor, room) {
        Err(why) => stop_shown(alloc, why, &cursor),
        Ok(head) => head_told(alloc, &head, &cursor),
    }
}
