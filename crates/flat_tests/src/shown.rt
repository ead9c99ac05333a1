//! Flat designs as texts, for the tests: the printed names of their bits, in their order.

use crate::faults::{bytes_shown, stopped};
use crate::reading::{is_wanted, modules};
use design_form::Design;
use elab_binds::BoxPorts;
use std::alloc::{AllocError, Global};
use std::test::Fail;
use vlog_elab::elaborate;
use vlog_tree::Expr;

// The names of the bits that begin so, a blank before each.
pub(crate) fn bits_below(
    alloc: Global,
    design: &Design,
    prefix: &[u8],
) -> Result<String, AllocError> {
    let mut out = String::new(alloc);
    for number in 0..design.bits() {
        if let Some(name) = design.bit_name(number) {
            if name.starts_with(prefix) {
                out.push_str(" ")?;
                bytes_shown(name, &mut out)?;
            }
        }
    }
    Ok(out)
}

// The design below a top, or why there is none.
pub(crate) fn flat(
    alloc: Global,
    text: &str,
    top: &str,
    boxes: &[BoxPorts],
) -> Result<Result<Design, String>, Fail> {
    let found = modules(alloc, text)?;
    match elaborate(alloc, found.as_slice(), top, boxes) {
        Ok(design) => Ok(Ok(design)),
        Err(fault) => Ok(Err(stopped(alloc, fault)?)),
    }
}

// What elaboration says below the top `m`.
pub(crate) fn said(alloc: Global, text: &str, boxes: &[BoxPorts]) -> Result<String, Fail> {
    match flat(alloc, text, "m", boxes)? {
        Ok(design) => Ok(bits_below(alloc, &design, b"")?),
        Err(fault) => Ok(fault),
    }
}

// The first row whose text, behind what stands before all and before what stands behind, isn't answered so, with what came
// instead.
pub(crate) fn wrong(
    alloc: Global,
    head: &str,
    tail: &str,
    rows: &[(&str, &str)],
) -> Result<Option<String>, Fail> {
    for (row, want) in rows {
        let text = format!(in alloc; "{head}{row}{tail}")?;
        let got = said(alloc, text.as_str(), &[])?;
        if !is_wanted(got.as_str(), *want)? {
            return Ok(Some(format!(in alloc; "{row}: {want} / {got}")?));
        }
    }
    Ok(None)
}

// The design below a top that has one.
pub(crate) fn design_of(alloc: Global, text: &str, top: &str) -> Result<Design, Fail> {
    match flat(alloc, text, top, &[])? {
        Ok(design) => Ok(design),
        Err(fault) => {
            if is_wanted(fault.as_str(), "")? {
                return Err(Fail::new("no fault"));
            }
            Err(Fail::new("no design"))
        }
    }
}

fn number(alloc: Global, e: &Expr, out: &mut String) -> Result<(), AllocError> {
    match e {
        Expr::Number(_, n) => {
            let bits = n.get().bits;
            let shown = format!(in alloc; "{bits}")?;
            out.push_str(shown.as_str())
        }
        _ => out.push_str("?"),
    }
}

// A name, or a bit or a part of one. Any other expression is not shown.
fn expr(alloc: Global, e: &Expr, out: &mut String) -> Result<(), AllocError> {
    match e {
        Expr::Name(_, name) => bytes_shown(name.as_slice(), out),
        Expr::Index(_, name, i) => {
            bytes_shown(name.as_slice(), out)?;
            out.push_str("[")?;
            number(alloc, i.get(), out)?;
            out.push_str("]")
        }
        Expr::Select(_, _, name, i, j) => {
            bytes_shown(name.as_slice(), out)?;
            out.push_str("[")?;
            number(alloc, i.get(), out)?;
            out.push_str(":")?;
            number(alloc, j.get(), out)?;
            out.push_str("]")
        }
        _ => out.push_str("?"),
    }
}

// What drives a target, a blank before each.
pub(crate) fn drivers_of(
    alloc: Global,
    design: &Design,
    target: &str,
) -> Result<String, AllocError> {
    let mut out = String::new(alloc);
    for driver in design.parts().drivers.as_slice() {
        let mut shown = String::new(alloc);
        expr(alloc, &driver.target, &mut shown)?;
        if shown.as_str() == target {
            out.push_str(" ")?;
            expr(alloc, &driver.value, &mut out)?;
        }
    }
    Ok(out)
}
