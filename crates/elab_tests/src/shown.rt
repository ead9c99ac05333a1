//! Expressions as texts, for the tests. A number is its width, `u` or `s`, and its bits.

use std::alloc::{AllocError, Global};
use vlog_const::ConstValue;
use vlog_tree::{Expr, Ident, Part};

pub(crate) fn bytes_shown(bytes: &[u8], out: &mut String) -> Result<(), AllocError> {
    for b in bytes {
        out.push(char::from(*b))?;
    }
    Ok(())
}

pub(crate) fn name_shown(name: &Ident, out: &mut String) -> Result<(), AllocError> {
    bytes_shown(name.name.as_slice(), out)
}

pub(crate) fn constant(
    alloc: Global,
    value: ConstValue,
    out: &mut String,
) -> Result<(), AllocError> {
    let width = value.width;
    let sign = if value.signed { "s" } else { "u" };
    let bits = value.bits;
    let shown = format!(in alloc; "{width}{sign}{bits}")?;
    out.push_str(shown.as_str())
}

fn mark(part: Part) -> &'static str {
    match part {
        Part::Fixed => ":",
        Part::Up => "+:",
        Part::Down => "-:",
    }
}

// An expression down to some depth, without the names of its operators.
#[cycle(expr)]
fn expr(alloc: Global, e: &Expr, depth: usize, out: &mut String) -> Result<(), AllocError> {
    if depth == 0 {
        return Ok(());
    }
    match e {
        Expr::Number(_, n) => {
            let n = n.get();
            let value = ConstValue {
                bits: n.bits,
                width: n.width,
                signed: n.signed,
            };
            constant(alloc, value, out)
        }
        Expr::Name(_, name) => bytes_shown(name.as_slice(), out),
        Expr::Index(_, name, i) => index(alloc, name.as_slice(), i.get(), depth - 1, out),
        Expr::Select(part, _, name, i, j) => {
            bytes_shown(name.as_slice(), out)?;
            between(
                alloc,
                ("[", mark(*part), "]"),
                i.get(),
                j.get(),
                depth - 1,
                out,
            )
        }
        Expr::Brackets(_, i) => index(alloc, b"", i.get(), depth - 1, out),
        Expr::Concat(_, es) => exprs(alloc, es.as_slice(), depth - 1, out),
        Expr::Repeat(_, count, es) => {
            expr(alloc, count.get(), depth - 1, out)?;
            exprs(alloc, es.as_slice(), depth - 1, out)
        }
        Expr::Unary(_, _, u) => {
            out.push_str(".")?;
            expr(alloc, u.get(), depth - 1, out)
        }
        Expr::Binary(_, _, a, b) => {
            between(alloc, ("(", ".", ")"), a.get(), b.get(), depth - 1, out)
        }
        Expr::Conditional(_, test, yes, no) => {
            choice(alloc, test.get(), yes.get(), no.get(), depth - 1, out)
        }
    }
}

// An expression in the brackets of an index behind a name, or in its own where there is no name.
#[cycle(expr)]
fn index(
    alloc: Global,
    name: &[u8],
    i: &Expr,
    depth: usize,
    out: &mut String,
) -> Result<(), AllocError> {
    bytes_shown(name, out)?;
    out.push_str(if name.is_empty() { "(" } else { "[" })?;
    expr(alloc, i, depth, out)?;
    out.push_str(if name.is_empty() { ")" } else { "]" })
}

#[cycle(expr)]
fn between(
    alloc: Global,
    marks: (&str, &str, &str),
    a: &Expr,
    b: &Expr,
    depth: usize,
    out: &mut String,
) -> Result<(), AllocError> {
    out.push_str(marks.0)?;
    expr(alloc, a, depth, out)?;
    out.push_str(marks.1)?;
    expr(alloc, b, depth, out)?;
    out.push_str(marks.2)
}

#[cycle(expr)]
fn choice(
    alloc: Global,
    test: &Expr,
    yes: &Expr,
    no: &Expr,
    depth: usize,
    out: &mut String,
) -> Result<(), AllocError> {
    out.push_str("(")?;
    expr(alloc, test, depth, out)?;
    between(alloc, ("?", ":", ")"), yes, no, depth, out)
}

#[cycle(expr)]
pub(crate) fn exprs(
    alloc: Global,
    es: &[Expr],
    depth: usize,
    out: &mut String,
) -> Result<(), AllocError> {
    out.push_str("{")?;
    for e in es {
        out.push_str(" ")?;
        expr(alloc, e, depth, out)?;
    }
    out.push_str(" }")
}

pub(crate) fn value(alloc: Global, e: &Expr, out: &mut String) -> Result<(), AllocError> {
    expr(alloc, e, 300, out)
}
