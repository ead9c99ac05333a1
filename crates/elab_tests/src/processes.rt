//! Statements in a scope, and what starts them.
//!
//! A process stands on the second line, and the scope's prefix is `u.`.

use crate::faults::stopped;
use crate::names::scope_of;
use crate::reading::{first, is_wanted, modules};
use crate::statements::{control, stmt};
use elab_names::{Scope, control_in, statement_in};
use std::alloc::{AllocError, Global};
use std::test::Fail;
use vlog_tree::{Control, Item, Module, Stmt};

const HEAD: &str =
    "module m; parameter P = 6; wire w, c; reg [7:0] v; reg d; integer i; genvar g;\nalways @";

fn started(alloc: Global, c: &Control) -> Result<String, AllocError> {
    let mut out = String::new(alloc);
    control(alloc, c, &mut out)?;
    Ok(out)
}

fn control_shown(alloc: Global, c: &Control, scope: &Scope) -> Result<String, AllocError> {
    match control_in(alloc, c, scope) {
        Ok(c) => started(alloc, &c),
        Err(fault) => stopped(alloc, fault),
    }
}

fn body(alloc: Global, s: &Stmt) -> Result<String, AllocError> {
    let mut out = String::new(alloc);
    stmt(alloc, s, 300, &mut out)?;
    Ok(out)
}

fn body_shown(alloc: Global, s: &Stmt, scope: &Scope) -> Result<String, AllocError> {
    match statement_in(alloc, s, scope) {
        Ok(s) => body(alloc, &s),
        Err(fault) => stopped(alloc, fault),
    }
}

// What stands in the last item.
fn process(module: &Module) -> Result<(&Control, &Stmt), Fail> {
    match module.items.as_slice().last() {
        Some(Item::Always(_, c, s)) => Ok((c, s)),
        _ => Err(Fail::new("no process")),
    }
}

// Both of a process, with a bar between.
fn both(alloc: Global, c: &Control, s: &Stmt, scope: &Scope) -> Result<String, AllocError> {
    let mut out = control_shown(alloc, c, scope)?;
    out.push_str(" | ")?;
    let shown = body_shown(alloc, s, scope)?;
    out.push_str(shown.as_str())?;
    Ok(out)
}

fn shown(alloc: Global, text: &str) -> Result<String, Fail> {
    let found = modules(alloc, text)?;
    let module = first(&found)?;
    let d = scope_of(alloc, module)?;
    let (c, s) = process(module)?;
    Ok(both(alloc, c, s, &d.scope)?)
}

// The first row that is not answered so, with what came instead.
fn first_wrong(alloc: Global, rows: &[(&str, &str)]) -> Result<Option<String>, Fail> {
    for (p, want) in rows {
        let text = format!(in alloc; "{HEAD}{p} endmodule")?;
        let got = shown(alloc, text.as_str())?;
        if !is_wanted(got.as_str(), *want)? {
            return Ok(Some(format!(in alloc; "{p}: {want} / {got}")?));
        }
    }
    Ok(None)
}

#[test]
fn a_process_has_printed_names(rt: HostRuntime) -> Result<(), Fail> {
    let rows: [(&str, &str); 4] = [
        (
            "(posedge c or negedge v[P]) begin : n v[i] <= P; if (w) d = v[0]; else ; end",
            " +u.c -u.v[32s6] | < u.v[u.i]<=32s6 if u.w <u.d=u.v[32s0]> else <;>>",
        ),
        (
            "(v, w) case (v) 0, P: d = 1; default: {d, v[P:0]} = w; endcase",
            " u.v u.w | case u.v 32s0 32s6: <u.d=32s1> default: <{ u.d u.v[32s6:32s0] }=u.w>",
        ),
        (
            "* for (i = 0; i < P; i = i + 1) v[i] = w;",
            " * | for u.i=32s0 (u.i.32s6) u.i=(u.i.32s1) <u.v[u.i]=u.w>",
        ),
        ("* begin w = 0; end", " * | < u.w=32s0>"),
    ];
    assert_eq!(rt; first_wrong(rt.alloc(), &rows)?, None);
    Ok(())
}

#[test]
fn a_loop_counts_by_an_integer(rt: HostRuntime) -> Result<(), Fail> {
    let rows: [(&str, &str); 6] = [
        (
            "* for (w = 0; w < 2; w = w + 1) d = 0;",
            " * | NotConstant 2:16",
        ),
        (
            "* for (v = 0; v < 2; v = v + 1) d = 0;",
            " * | NotConstant 2:16",
        ),
        (
            "* for (P = 0; P < 2; P = P + 1) d = 0;",
            " * | NotConstant 2:16",
        ),
        (
            "* for (g = 0; g < 2; g = g + 1) d = 0;",
            " * | NotConstant 2:16",
        ),
        (
            "* for (x = 0; y < 2; x = x + 1) d = 0;",
            " * | Undeclared x 2:16",
        ),
        (
            "* for (i = 0; i < 2; d = i + 1) d = 0;",
            " * | NotConstant 2:30",
        ),
    ];
    assert_eq!(rt; first_wrong(rt.alloc(), &rows)?, None);
    Ok(())
}

#[test]
fn what_is_no_signal_is_not_assigned(rt: HostRuntime) -> Result<(), Fail> {
    let rows: [(&str, &str); 6] = [
        (
            "(posedge P) P = w;",
            "NotConstant 2:18 | NotAssignable 2:21",
        ),
        ("(g) g = w;", "NotConstant 2:10 | NotAssignable 2:13"),
        ("(x) y = z;", "Undeclared x 2:10 | Undeclared y 2:13"),
        (
            "(w or v[x]) {d, P} = x;",
            "Undeclared x 2:17 | NotAssignable 2:25",
        ),
        ("* d = x;", " * | Undeclared x 2:15"),
        (
            "* begin if (w) d = 0; else v[x] = y; end",
            " * | Undeclared x 2:38",
        ),
    ];
    assert_eq!(rt; first_wrong(rt.alloc(), &rows)?, None);
    Ok(())
}
