//! Expressions, statements and what they are declared with as texts, for the tests.

use sqlite_items::Boxed;
use std::alloc::{AllocError, Global};
use vlog_tree::{
    Arm, Assigns, Connections, Control, Edge, Expr, Ident, Loop, Matching, NamedConnection, Number,
    Part, Range, Shape, Stmt,
};

pub(crate) fn bytes_shown(bytes: &[u8], out: &mut String) -> Result<(), AllocError> {
    for b in bytes {
        out.push(char::from(*b))?;
    }
    Ok(())
}

pub(crate) fn name_shown(name: &Ident, out: &mut String) -> Result<(), AllocError> {
    bytes_shown(name.name.as_slice(), out)
}

pub(crate) fn names_shown(names: &[Ident], out: &mut String) -> Result<(), AllocError> {
    for name in names {
        out.push_str(" ")?;
        name_shown(name, out)?;
    }
    Ok(())
}

fn number(alloc: Global, n: &Number, out: &mut String) -> Result<(), AllocError> {
    let bits = n.bits;
    let shown = format!(in alloc; "{bits}")?;
    out.push_str(shown.as_str())
}

fn mark(part: Part) -> &'static str {
    match part {
        Part::Fixed => ":",
        Part::Up => "+:",
        Part::Down => "-:",
    }
}

// An expression down to some depth, without the names of its operators.
#[cycle(expr)]
fn expr(alloc: Global, e: &Expr, depth: usize, out: &mut String) -> Result<(), AllocError> {
    if depth == 0 {
        return Ok(());
    }
    match e {
        Expr::Number(_, n) => number(alloc, n.get(), out),
        Expr::Name(_, name) => bytes_shown(name.as_slice(), out),
        Expr::Index(_, name, i) => index(alloc, name.as_slice(), i.get(), depth - 1, out),
        Expr::Select(part, _, name, i, j) => {
            bytes_shown(name.as_slice(), out)?;
            between(
                alloc,
                ("[", mark(*part), "]"),
                i.get(),
                j.get(),
                depth - 1,
                out,
            )
        }
        Expr::Brackets(_, i) => index(alloc, b"", i.get(), depth - 1, out),
        Expr::Concat(_, es) => exprs(alloc, es.as_slice(), depth - 1, out),
        Expr::Repeat(_, count, es) => {
            expr(alloc, count.get(), depth - 1, out)?;
            exprs(alloc, es.as_slice(), depth - 1, out)
        }
        Expr::Unary(_, _, u) => {
            out.push_str(".")?;
            expr(alloc, u.get(), depth - 1, out)
        }
        Expr::Binary(_, _, a, b) => {
            between(alloc, ("(", ".", ")"), a.get(), b.get(), depth - 1, out)
        }
        Expr::Conditional(_, test, yes, no) => {
            choice(alloc, test.get(), yes.get(), no.get(), depth - 1, out)
        }
    }
}

// An expression in the brackets of an index behind a name, or in its own where there is no name.
#[cycle(expr)]
fn index(
    alloc: Global,
    name: &[u8],
    i: &Expr,
    depth: usize,
    out: &mut String,
) -> Result<(), AllocError> {
    bytes_shown(name, out)?;
    out.push_str(if name.is_empty() { "(" } else { "[" })?;
    expr(alloc, i, depth, out)?;
    out.push_str(if name.is_empty() { ")" } else { "]" })
}

#[cycle(expr)]
fn between(
    alloc: Global,
    marks: (&str, &str, &str),
    a: &Expr,
    b: &Expr,
    depth: usize,
    out: &mut String,
) -> Result<(), AllocError> {
    out.push_str(marks.0)?;
    expr(alloc, a, depth, out)?;
    out.push_str(marks.1)?;
    expr(alloc, b, depth, out)?;
    out.push_str(marks.2)
}

#[cycle(expr)]
fn choice(
    alloc: Global,
    test: &Expr,
    yes: &Expr,
    no: &Expr,
    depth: usize,
    out: &mut String,
) -> Result<(), AllocError> {
    out.push_str("(")?;
    expr(alloc, test, depth, out)?;
    between(alloc, ("?", ":", ")"), yes, no, depth, out)
}

#[cycle(expr)]
pub(crate) fn exprs(
    alloc: Global,
    es: &[Expr],
    depth: usize,
    out: &mut String,
) -> Result<(), AllocError> {
    out.push_str("{")?;
    for e in es {
        out.push_str(" ")?;
        expr(alloc, e, depth, out)?;
    }
    out.push_str(" }")
}

pub(crate) fn value(alloc: Global, e: &Expr, out: &mut String) -> Result<(), AllocError> {
    expr(alloc, e, 300, out)
}

pub(crate) fn header(alloc: Global, turns: &Loop, out: &mut String) -> Result<(), AllocError> {
    name_shown(&turns.variable, out)?;
    out.push_str("=")?;
    value(alloc, turns.start.get(), out)?;
    out.push_str(" ")?;
    value(alloc, turns.test.get(), out)?;
    out.push_str(" ")?;
    name_shown(&turns.stepped, out)?;
    out.push_str("=")?;
    value(alloc, turns.step.get(), out)
}

pub(crate) fn labels(alloc: Global, es: &[Expr], out: &mut String) -> Result<(), AllocError> {
    if es.is_empty() {
        return out.push_str(" default:");
    }
    for e in es {
        out.push_str(" ")?;
        value(alloc, e, out)?;
    }
    out.push_str(":")
}

// A statement down to some depth.
#[cycle(stmt)]
pub(crate) fn stmt(
    alloc: Global,
    s: &Stmt,
    depth: usize,
    out: &mut String,
) -> Result<(), AllocError> {
    if depth == 0 {
        return Ok(());
    }
    match s {
        Stmt::Empty(_) => out.push_str(";"),
        Stmt::Block(_, name, ss) => group(alloc, name, ss.as_slice(), depth - 1, out),
        Stmt::Assign(_, target, by, e) => assigned(alloc, target, *by, e, out),
        Stmt::If(_, test, yes, no) => branch(alloc, test, yes.get(), no, depth - 1, out),
        Stmt::Case(_, how, selector, arms) => {
            cases(alloc, *how, selector, arms.as_slice(), depth - 1, out)
        }
        Stmt::For(_, turns, body) => {
            out.push_str("for ")?;
            header(alloc, turns, out)?;
            inner(alloc, body.get(), depth - 1, out)
        }
    }
}

// A statement in angle brackets.
#[cycle(stmt)]
fn inner(alloc: Global, s: &Stmt, depth: usize, out: &mut String) -> Result<(), AllocError> {
    out.push_str(" <")?;
    stmt(alloc, s, depth, out)?;
    out.push_str(">")
}

#[cycle(stmt)]
fn group(
    alloc: Global,
    name: &Option<Ident>,
    ss: &[Stmt],
    depth: usize,
    out: &mut String,
) -> Result<(), AllocError> {
    out.push_str("<")?;
    if let Some(name) = name {
        name_shown(name, out)?;
    }
    for s in ss {
        out.push_str(" ")?;
        stmt(alloc, s, depth, out)?;
    }
    out.push_str(">")
}

fn assigned(
    alloc: Global,
    target: &Expr,
    by: Assigns,
    e: &Expr,
    out: &mut String,
) -> Result<(), AllocError> {
    value(alloc, target, out)?;
    out.push_str(match by {
        Assigns::Blocking => "=",
        Assigns::Nonblocking => "<=",
    })?;
    value(alloc, e, out)
}

#[cycle(stmt)]
fn branch(
    alloc: Global,
    test: &Expr,
    yes: &Stmt,
    no: &Option<Boxed<Stmt>>,
    depth: usize,
    out: &mut String,
) -> Result<(), AllocError> {
    out.push_str("if ")?;
    value(alloc, test, out)?;
    inner(alloc, yes, depth, out)?;
    let Some(no) = no else {
        return Ok(());
    };
    out.push_str(" else")?;
    inner(alloc, no.get(), depth, out)
}

#[cycle(stmt)]
fn cases(
    alloc: Global,
    how: Matching,
    selector: &Expr,
    arms: &[Arm<Boxed<Stmt>>],
    depth: usize,
    out: &mut String,
) -> Result<(), AllocError> {
    out.push_str(match how {
        Matching::Exact => "case ",
        Matching::Wildcard => "casez ",
    })?;
    value(alloc, selector, out)?;
    for arm in arms {
        labels(alloc, arm.labels.as_slice(), out)?;
        inner(alloc, arm.body.get(), depth, out)?;
    }
    Ok(())
}

fn range(alloc: Global, r: &Range, out: &mut String) -> Result<(), AllocError> {
    out.push_str(" [")?;
    value(alloc, &r.msb, out)?;
    out.push_str(":")?;
    value(alloc, &r.lsb, out)?;
    out.push_str("]")
}

pub(crate) fn shape(alloc: Global, across: &Shape, out: &mut String) -> Result<(), AllocError> {
    if across.signed {
        out.push_str(" signed")?;
    }
    match &across.range {
        None => Ok(()),
        Some(r) => range(alloc, r.get(), out),
    }
}

pub(crate) fn connections(
    alloc: Global,
    c: &Connections,
    out: &mut String,
) -> Result<(), AllocError> {
    out.push_str("(")?;
    match c {
        Connections::Ordered(es) => ordered(alloc, es.as_slice(), out)?,
        Connections::Named(ns) => named(alloc, ns.as_slice(), out)?,
    }
    out.push_str(")")
}

fn maybe(alloc: Global, e: &Option<Expr>, out: &mut String) -> Result<(), AllocError> {
    match e {
        None => Ok(()),
        Some(e) => value(alloc, e, out),
    }
}

fn ordered(alloc: Global, es: &[Option<Expr>], out: &mut String) -> Result<(), AllocError> {
    for e in es {
        out.push_str(" ")?;
        maybe(alloc, e, out)?;
    }
    Ok(())
}

fn named(alloc: Global, ns: &[NamedConnection], out: &mut String) -> Result<(), AllocError> {
    for n in ns {
        out.push_str(" .")?;
        name_shown(&n.name, out)?;
        out.push_str("=")?;
        maybe(alloc, &n.value, out)?;
    }
    Ok(())
}

pub(crate) fn control(c: &Control, out: &mut String) -> Result<(), AllocError> {
    match c {
        Control::Reads => out.push_str(" *"),
        Control::Events(es) => {
            for e in es.as_slice() {
                out.push_str(match e.edge {
                    Edge::Any => " ",
                    Edge::Rising => " +",
                    Edge::Falling => " -",
                })?;
                name_shown(&e.name, out)?;
            }
            Ok(())
        }
    }
}
