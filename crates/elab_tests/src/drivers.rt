//! What drives the signals of a scope.
//!
//! An item stands on the second line, and the scope's prefix is `u.`. A driver and a gate are shown with their places.

use crate::faults::stopped;
use crate::names::scope_of;
use crate::reading::{first, is_wanted, modules};
use crate::shown::{exprs, value};
use crate::statements::{control, stmt};
use design_form::{Driver, GateUse, Process};
use elab_drivers::{Draft, assign_all, gate_all, process, wire_all};
use elab_names::ElabFault;
use rdc_outside::Place;
use std::alloc::{AllocError, Global};
use std::test::Fail;
use vlog_tree::{GateKind, Item, Module};

const HEAD: &str =
    "module m (input n, output o); parameter P = 1; wire a, z; wire [3:0] b; reg r; integer i;\n";

fn place(alloc: Global, p: Place, out: &mut String) -> Result<(), AllocError> {
    let line = p.line;
    let col = p.col;
    let shown = format!(in alloc; " {line}:{col} ")?;
    out.push_str(shown.as_str())
}

fn driver(alloc: Global, d: &Driver, out: &mut String) -> Result<(), AllocError> {
    place(alloc, d.place, out)?;
    value(alloc, &d.target, out)?;
    out.push_str("=")?;
    value(alloc, &d.value, out)
}

fn kind(k: GateKind) -> &'static str {
    match k {
        GateKind::And => "and",
        GateKind::Nand => "nand",
        GateKind::Or => "or",
        GateKind::Nor => "nor",
        GateKind::Xor => "xor",
        GateKind::Xnor => "xnor",
        GateKind::Not => "not",
        GateKind::Buf => "buf",
    }
}

fn gate(alloc: Global, g: &GateUse, out: &mut String) -> Result<(), AllocError> {
    place(alloc, g.place, out)?;
    out.push_str(kind(g.kind))?;
    exprs(alloc, g.terminals.as_slice(), 300, out)
}

fn always(alloc: Global, p: &Process, out: &mut String) -> Result<(), AllocError> {
    place(alloc, p.place, out)?;
    out.push_str("always")?;
    control(alloc, &p.control, out)?;
    out.push_str(" ")?;
    stmt(alloc, &p.body, 300, out)
}

pub(crate) fn drafted(alloc: Global, d: &Draft) -> Result<String, AllocError> {
    let mut out = String::new(alloc);
    for x in &d.drivers {
        driver(alloc, x, &mut out)?;
    }
    for x in &d.gates {
        gate(alloc, x, &mut out)?;
    }
    for x in &d.processes {
        always(alloc, x, &mut out)?;
    }
    Ok(out)
}

// What an item drives.
fn drive(alloc: Global, d: &mut Draft, item: &Item) -> Result<(), ElabFault> {
    match item {
        Item::Wires(_, _, nets) => wire_all(alloc, d, nets.as_slice()),
        Item::Assign(_, assignments) => assign_all(alloc, d, assignments.as_slice()),
        Item::Gates(_, kind, gates) => gate_all(alloc, d, *kind, gates.as_slice()),
        Item::Always(place, control, body) => process(alloc, d, *place, control, body),
        _ => Ok(()),
    }
}

fn drive_all(alloc: Global, d: &mut Draft, items: &[Item]) -> Result<(), ElabFault> {
    for item in items {
        match drive(alloc, d, item) {
            Ok(()) => {}
            Err(fault) => return Err(fault),
        }
    }
    Ok(())
}

fn items_shown(alloc: Global, d: &mut Draft, items: &[Item]) -> Result<String, AllocError> {
    match drive_all(alloc, d, items) {
        Ok(()) => drafted(alloc, d),
        Err(fault) => stopped(alloc, fault),
    }
}

pub(crate) fn draft_of(alloc: Global, module: &Module) -> Result<Draft, Fail> {
    let drawing = scope_of(alloc, module)?;
    Ok(Draft {
        drawing,
        drivers: Vec::new(alloc),
        processes: Vec::new(alloc),
        gates: Vec::new(alloc),
    })
}

fn shown(alloc: Global, text: &str) -> Result<String, Fail> {
    let found = modules(alloc, text)?;
    let module = first(&found)?;
    let mut d = draft_of(alloc, module)?;
    Ok(items_shown(alloc, &mut d, module.items.as_slice())?)
}

// The first row that is not answered so, with what came instead.
fn first_wrong(alloc: Global, rows: &[(&str, &str)]) -> Result<Option<String>, Fail> {
    for (item, want) in rows {
        let text = format!(in alloc; "{HEAD}{item} endmodule")?;
        let got = shown(alloc, text.as_str())?;
        if !is_wanted(got.as_str(), *want)? {
            return Ok(Some(format!(in alloc; "{item}: {want} / {got}")?));
        }
    }
    Ok(None)
}

#[test]
fn a_wire_is_assigned(rt: HostRuntime) -> Result<(), Fail> {
    let rows: [(&str, &str); 5] = [
        ("assign {a, b[1]} = n;", " 2:8 { u.a u.b[32s1] }=u.n"),
        (
            "assign o = P, b[3:2] = b[1:0];",
            " 2:8 u.o=32s1 2:15 u.b[32s3:32s2]=u.b[32s1:32s0]",
        ),
        (
            "assign b[P] = r, b[P +: 2] = i;",
            " 2:8 u.b[32s1]=u.r 2:18 u.b[32s1+:32s2]=u.i",
        ),
        (
            "wire w = a & n, e, f = ~w;",
            " 2:6 u.w=(u.a.u.n) 2:20 u.f=.u.w",
        ),
        (
            "assign a = n; wire w = r; assign z = w;",
            " 2:8 u.a=u.n 2:20 u.w=u.r 2:34 u.z=u.w",
        ),
    ];
    assert_eq!(rt; first_wrong(rt.alloc(), &rows)?, None);
    Ok(())
}

#[test]
fn what_is_no_wire_is_not_assigned(rt: HostRuntime) -> Result<(), Fail> {
    let rows: [(&str, &str); 10] = [
        ("assign r = a;", "NotAssignable 2:8"),
        ("assign i = a;", "NotAssignable 2:8"),
        ("assign n = a;", "NotAssignable 2:8"),
        ("assign P = a;", "NotAssignable 2:8"),
        ("assign a = z, {z, r} = x;", "NotAssignable 2:19"),
        ("assign x = a;", "Undeclared x 2:8"),
        ("assign a = x;", "Undeclared x 2:12"),
        ("assign b[i] = a;", "NotConstant 2:10"),
        ("assign b[n:0] = a;", "NotConstant 2:10"),
        ("wire w = x;", "Undeclared x 2:10"),
    ];
    assert_eq!(rt; first_wrong(rt.alloc(), &rows)?, None);
    Ok(())
}

#[test]
fn an_input_that_is_declared_as_a_wire_is_not_driven(rt: HostRuntime) -> Result<(), Fail> {
    let text = "module m (n, o); input n; output o; wire o = 0; wire n = 1; endmodule";
    let got = shown(rt.alloc(), text)?;
    assert!(rt; is_wanted(got.as_str(), "NotAssignable 1:54")?);
    Ok(())
}

#[test]
fn a_gate_drives_its_outputs(rt: HostRuntime) -> Result<(), Fail> {
    let rows: [(&str, &str); 6] = [
        ("not (a, z, n);", " 2:5 not{ u.a u.z u.n }"),
        ("and (a, r, P);", " 2:5 and{ u.a u.r 32s1 }"),
        (
            "buf (a, n), c (b[0], {n, P});",
            " 2:5 buf{ u.a u.n } 2:13 buf{ u.b[32s0] { u.n 32s1 } }",
        ),
        (
            "nor g (o, n); xnor (a, n, n, n, i);",
            " 2:5 nor{ u.o u.n } 2:20 xnor{ u.a u.n u.n u.n u.i }",
        ),
        (
            "nand (a, n); or (z, n);",
            " 2:6 nand{ u.a u.n } 2:17 or{ u.z u.n }",
        ),
        ("xor (a, b[i]);", " 2:5 xor{ u.a u.b[u.i] }"),
    ];
    assert_eq!(rt; first_wrong(rt.alloc(), &rows)?, None);
    Ok(())
}

#[test]
fn a_gate_is_refused(rt: HostRuntime) -> Result<(), Fail> {
    let rows: [(&str, &str); 7] = [
        ("and (a);", "PortCount 2:5"),
        ("not u (r);", "PortCount 2:5"),
        ("not (a, r, n);", "NotAssignable 2:9"),
        ("and (n, a, z);", "NotAssignable 2:6"),
        ("or (a, x);", "Undeclared x 2:8"),
        ("or (a & z, n);", "NotAssignable 2:5"),
        ("buf (b[i], n);", "NotConstant 2:8"),
    ];
    assert_eq!(rt; first_wrong(rt.alloc(), &rows)?, None);
    Ok(())
}

#[test]
fn a_process_stands_at_its_place(rt: HostRuntime) -> Result<(), Fail> {
    let rows: [(&str, &str); 3] = [
        (
            "always @(posedge n) r <= a; assign a = r;",
            " 2:36 u.a=u.r 2:1 always +u.n u.r<=u.a",
        ),
        ("always @(posedge x) y <= a;", "Undeclared x 2:18"),
        ("always @* P = a;", "NotAssignable 2:11"),
    ];
    assert_eq!(rt; first_wrong(rt.alloc(), &rows)?, None);
    Ok(())
}
