//! Trees and faults as texts, for the tests.
ghost use Rattle.std.specs.Prelude.{◌≡◌, ◌+◌, length, IfOk};

use rdc_outside::{Place, Seq, Text};
use std::alloc::{AllocError, Global};
use vlog_expr::{ExprFault, parse_expr};
use vlog_lex::lex;
use vlog_tree::{Binary, Expr, Number, Part, Unary};

// A text of one line, whose columns are counted from 0.
pub(crate) fn text_of(alloc: Global, bytes: &[u8]) -> Result<Text, AllocError>
    ensures { IfOk result (λ t. length t.places ≡ length t.bytes + 1) }
{
    let mut places = Vec::new(alloc);
    for i in 0..bytes.len() {
        let col = if i < 1000 { i as u32 } else { 1000 };
        places.push(Place {
            file: 0,
            line: 1,
            col,
        })?;
    }
    places.push(Place {
        file: 0,
        line: 2,
        col: 0,
    })?;
    Ok(Text {
        bytes: Seq::from_vec(Vec::from_slice(alloc, bytes)?),
        places: Seq::from_vec(places),
        files: Seq::new(alloc),
    })
}

fn unary_shown(op: Unary) -> &'static str {
    match op {
        Unary::Plus => "+",
        Unary::Minus => "-",
        Unary::Not => "!",
        Unary::Invert => "~",
        Unary::ReduceAnd => "&",
        Unary::ReduceNand => "~&",
        Unary::ReduceOr => "|",
        Unary::ReduceNor => "~|",
        Unary::ReduceXor => "^",
        Unary::ReduceXnor => "~^",
    }
}

fn binary_shown(op: Binary) -> &'static str {
    match op {
        Binary::Power => "**",
        Binary::Multiply => "*",
        Binary::Divide => "/",
        Binary::Remainder => "%",
        Binary::Add => "+",
        Binary::Subtract => "-",
        Binary::ShiftLeft => "<<",
        Binary::ShiftRight => ">>",
        Binary::ArithmeticShiftLeft => "<<<",
        Binary::ArithmeticShiftRight => ">>>",
        Binary::Less => "<",
        Binary::AtMost => "<=",
        Binary::Greater => ">",
        Binary::AtLeast => ">=",
        Binary::Equal => "==",
        Binary::NotEqual => "!=",
        Binary::CaseEqual => "===",
        Binary::CaseNotEqual => "!==",
        Binary::And => "&",
        Binary::Xor => "^",
        Binary::Xnor => "~^",
        Binary::Or => "|",
        Binary::LogicalAnd => "&&",
        Binary::LogicalOr => "||",
    }
}

// Width, s or u, bits, and the positions of z digits if there are any.
fn number_shown(alloc: Global, n: Number, out: &mut String) -> Result<(), AllocError> {
    let width = n.width;
    let bits = n.bits;
    let z = n.z;
    let sign = if n.signed { "s" } else { "u" };
    let shown = if z == 0 {
        format!(in alloc; "{width}{sign}{bits}")?
    } else {
        format!(in alloc; "{width}{sign}{bits}z{z}")?
    };
    out.push_str(shown.as_str())
}

pub(crate) fn bytes_shown(bytes: &[u8], out: &mut String) -> Result<(), AllocError> {
    for b in bytes {
        out.push(char::from(*b))?;
    }
    Ok(())
}

fn opened(word: &str, name: &[u8], out: &mut String) -> Result<(), AllocError> {
    out.push_str(word)?;
    bytes_shown(name, out)
}

fn operator(op: &str, out: &mut String) -> Result<(), AllocError> {
    out.push_str("(")?;
    out.push_str(op)
}

fn select_shown(part: Part) -> &'static str {
    match part {
        Part::Fixed => "(: ",
        Part::Up => "(+: ",
        Part::Down => "(-: ",
    }
}

// A tree in prefix form, down to some depth.
#[cycle(show)]
pub(crate) fn show(
    alloc: Global,
    e: &Expr,
    depth: usize,
    out: &mut String,
) -> Result<(), AllocError> {
    if depth == 0 {
        return Ok(());
    }
    match e {
        Expr::Number(_, n) => number_shown(alloc, *n.get(), out),
        Expr::Name(_, name) => bytes_shown(name.as_slice(), out),
        Expr::Index(_, name, i) => {
            opened("([] ", name.as_slice(), out)?;
            one(alloc, i.get(), depth - 1, out)
        }
        Expr::Select(part, _, name, i, j) => {
            opened(select_shown(*part), name.as_slice(), out)?;
            two(alloc, i.get(), j.get(), depth - 1, out)
        }
        Expr::Brackets(_, i) => {
            out.push_str("(()")?;
            one(alloc, i.get(), depth - 1, out)
        }
        Expr::Concat(_, es) => {
            out.push_str("({}")?;
            show_all(alloc, es.as_slice(), depth - 1, out)
        }
        Expr::Repeat(_, c, es) => {
            out.push_str("({{}}")?;
            show_next(alloc, c.get(), depth - 1, out)?;
            show_all(alloc, es.as_slice(), depth - 1, out)
        }
        Expr::Unary(_, op, u) => {
            operator(unary_shown(*op), out)?;
            one(alloc, u.get(), depth - 1, out)
        }
        Expr::Binary(_, op, a, b) => {
            operator(binary_shown(*op), out)?;
            two(alloc, a.get(), b.get(), depth - 1, out)
        }
        Expr::Conditional(_, test, yes, no) => {
            out.push_str("(?")?;
            show_next(alloc, test.get(), depth - 1, out)?;
            two(alloc, yes.get(), no.get(), depth - 1, out)
        }
    }
}

#[cycle(show)]
fn one(alloc: Global, e: &Expr, depth: usize, out: &mut String) -> Result<(), AllocError> {
    show_next(alloc, e, depth, out)?;
    out.push_str(")")
}

#[cycle(show)]
fn two(
    alloc: Global,
    a: &Expr,
    b: &Expr,
    depth: usize,
    out: &mut String,
) -> Result<(), AllocError> {
    show_next(alloc, a, depth, out)?;
    show_next(alloc, b, depth, out)?;
    out.push_str(")")
}

#[cycle(show)]
fn show_next(alloc: Global, e: &Expr, depth: usize, out: &mut String) -> Result<(), AllocError> {
    out.push_str(" ")?;
    show(alloc, e, depth, out)
}

#[cycle(show)]
fn show_all(alloc: Global, es: &[Expr], depth: usize, out: &mut String) -> Result<(), AllocError> {
    for e in es {
        show_next(alloc, e, depth, out)?;
    }
    out.push_str(")")
}

fn fault_shown(alloc: Global, fault: ExprFault) -> Result<String, AllocError> {
    match fault {
        ExprFault::Memory => String::from_str(alloc, "Memory"),
        ExprFault::Unsupported(word, place) => {
            let mut out = String::from_str(alloc, "Unsupported ")?;
            bytes_shown(word.as_slice(), &mut out)?;
            let col = place.col;
            let line = place.line;
            let at = format!(in alloc; " {line}:{col}")?;
            out.push_str(at.as_str())?;
            Ok(out)
        }
        ExprFault::Syntax(place) => {
            let col = place.col;
            let line = place.line;
            format!(in alloc; "Syntax {line}:{col}")
        }
        ExprFault::TooDeep(place) => {
            let col = place.col;
            let line = place.line;
            format!(in alloc; "TooDeep {line}:{col}")
        }
    }
}

// The tree of what a line begins with, and how many tokens it takes; or its fault.
pub(crate) fn shown(alloc: Global, bytes: &[u8]) -> Result<String, AllocError> {
    let text = text_of(alloc, bytes)?;
    let Ok(tokens) = lex(alloc, &text) else {
        return String::from_str(alloc, "no tokens");
    };
    match parse_expr(alloc, &text, tokens.as_slice(), 0) {
        Err(fault) => fault_shown(alloc, fault),
        Ok((e, count)) => {
            let mut out = String::new(alloc);
            show(alloc, &e, 300, &mut out)?;
            let behind = format!(in alloc; " {count}")?;
            out.push_str(behind.as_str())?;
            Ok(out)
        }
    }
}

pub(crate) fn count_of(alloc: Global, bytes: &[u8]) -> Result<String, AllocError> {
    let text = text_of(alloc, bytes)?;
    let Ok(tokens) = lex(alloc, &text) else {
        return String::from_str(alloc, "no tokens");
    };
    match parse_expr(alloc, &text, tokens.as_slice(), 0) {
        Err(fault) => fault_shown(alloc, fault),
        Ok((_, count)) => format!(in alloc; "{count}"),
    }
}
