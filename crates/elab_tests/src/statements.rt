//! Statements and what starts them as texts, for the tests.

use crate::shown::{name_shown, value};
use sqlite_items::Boxed;
use std::alloc::{AllocError, Global};
use vlog_tree::{Arm, Assigns, Control, Edge, Event, Expr, Ident, Loop, Matching, Stmt};

fn header(alloc: Global, turns: &Loop, out: &mut String) -> Result<(), AllocError> {
    name_shown(&turns.variable, out)?;
    out.push_str("=")?;
    value(alloc, turns.start.get(), out)?;
    out.push_str(" ")?;
    value(alloc, turns.test.get(), out)?;
    out.push_str(" ")?;
    name_shown(&turns.stepped, out)?;
    out.push_str("=")?;
    value(alloc, turns.step.get(), out)
}

fn labels(alloc: Global, es: &[Expr], out: &mut String) -> Result<(), AllocError> {
    if es.is_empty() {
        return out.push_str(" default:");
    }
    for e in es {
        out.push_str(" ")?;
        value(alloc, e, out)?;
    }
    out.push_str(":")
}

// A statement down to some depth.
#[cycle(stmt)]
pub(crate) fn stmt(
    alloc: Global,
    s: &Stmt,
    depth: usize,
    out: &mut String,
) -> Result<(), AllocError> {
    if depth == 0 {
        return Ok(());
    }
    match s {
        Stmt::Empty(_) => out.push_str(";"),
        Stmt::Block(_, name, ss) => group(alloc, name, ss.as_slice(), depth - 1, out),
        Stmt::Assign(_, target, by, e) => assigned(alloc, target, *by, e, out),
        Stmt::If(_, test, yes, no) => branch(alloc, test, yes.get(), no, depth - 1, out),
        Stmt::Case(_, how, selector, arms) => {
            cases(alloc, *how, selector, arms.as_slice(), depth - 1, out)
        }
        Stmt::For(_, turns, body) => {
            out.push_str("for ")?;
            header(alloc, turns, out)?;
            inner(alloc, body.get(), depth - 1, out)
        }
    }
}

// A statement in angle brackets.
#[cycle(stmt)]
fn inner(alloc: Global, s: &Stmt, depth: usize, out: &mut String) -> Result<(), AllocError> {
    out.push_str(" <")?;
    stmt(alloc, s, depth, out)?;
    out.push_str(">")
}

#[cycle(stmt)]
fn group(
    alloc: Global,
    name: &Option<Ident>,
    ss: &[Stmt],
    depth: usize,
    out: &mut String,
) -> Result<(), AllocError> {
    out.push_str("<")?;
    if let Some(name) = name {
        name_shown(name, out)?;
    }
    for s in ss {
        out.push_str(" ")?;
        stmt(alloc, s, depth, out)?;
    }
    out.push_str(">")
}

fn assigned(
    alloc: Global,
    target: &Expr,
    by: Assigns,
    e: &Expr,
    out: &mut String,
) -> Result<(), AllocError> {
    value(alloc, target, out)?;
    out.push_str(match by {
        Assigns::Blocking => "=",
        Assigns::Nonblocking => "<=",
    })?;
    value(alloc, e, out)
}

#[cycle(stmt)]
fn branch(
    alloc: Global,
    test: &Expr,
    yes: &Stmt,
    no: &Option<Boxed<Stmt>>,
    depth: usize,
    out: &mut String,
) -> Result<(), AllocError> {
    out.push_str("if ")?;
    value(alloc, test, out)?;
    inner(alloc, yes, depth, out)?;
    let Some(no) = no else {
        return Ok(());
    };
    out.push_str(" else")?;
    inner(alloc, no.get(), depth, out)
}

#[cycle(stmt)]
fn cases(
    alloc: Global,
    how: Matching,
    selector: &Expr,
    arms: &[Arm<Boxed<Stmt>>],
    depth: usize,
    out: &mut String,
) -> Result<(), AllocError> {
    out.push_str(match how {
        Matching::Exact => "case ",
        Matching::Wildcard => "casez ",
    })?;
    value(alloc, selector, out)?;
    for arm in arms {
        labels(alloc, arm.labels.as_slice(), out)?;
        inner(alloc, arm.body.get(), depth, out)?;
    }
    Ok(())
}

fn edge(e: Edge) -> &'static str {
    match e {
        Edge::Any => " ",
        Edge::Rising => " +",
        Edge::Falling => " -",
    }
}

fn event(alloc: Global, e: &Event, out: &mut String) -> Result<(), AllocError> {
    out.push_str(edge(e.edge))?;
    name_shown(&e.name, out)?;
    let Some(index) = &e.index else {
        return Ok(());
    };
    out.push_str("[")?;
    value(alloc, index.get(), out)?;
    out.push_str("]")
}

pub(crate) fn control(alloc: Global, c: &Control, out: &mut String) -> Result<(), AllocError> {
    match c {
        Control::Reads => out.push_str(" *"),
        Control::Events(es) => {
            for e in es.as_slice() {
                event(alloc, e, out)?;
            }
            Ok(())
        }
    }
}
