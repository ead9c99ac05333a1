//! The parameters and signals of a scope, behind the prefix `u.`.
//!
//! Each name is shown with what it means, and then each signal as the flat design has it.

use crate::faults::stopped;
use crate::reading::{first, is_wanted, modules};
use crate::shown::{bytes_shown, constant};
use design_form::{Bounds, Signal, SignalKind};
use elab_decls::Entries;
use elab_names::{Known, Meaning, Scope};
use elab_scopes::{Drawing, Given, open_scope};
use rdc_outside::Place;
use sqlite_items::Boxed;
use std::alloc::{AllocError, Global};
use std::test::Fail;
use vlog_tree::{Base, Expr, Module, Number};

fn kind(k: SignalKind) -> &'static str {
    match k {
        SignalKind::Wire => " wire",
        SignalKind::Register => " reg",
        SignalKind::Integer => " integer",
    }
}

fn range(alloc: Global, r: Option<Bounds>, out: &mut String) -> Result<(), AllocError> {
    let Some(Bounds { msb, lsb }) = r else {
        return Ok(());
    };
    let shown = format!(in alloc; " [{msb}:{lsb}]")?;
    out.push_str(shown.as_str())
}

pub(crate) fn signal(alloc: Global, s: &Signal, out: &mut String) -> Result<(), AllocError> {
    out.push_str("; ")?;
    bytes_shown(s.name.as_slice(), out)?;
    out.push_str(kind(s.kind))?;
    out.push_str(if s.signed { " signed" } else { "" })?;
    range(alloc, s.range, out)
}

fn known(k: &Known, out: &mut String) -> Result<(), AllocError> {
    bytes_shown(k.printed.as_slice(), out)?;
    out.push_str(if k.input { " in" } else { "" })
}

fn meaning(alloc: Global, m: Option<&Meaning>, out: &mut String) -> Result<(), AllocError> {
    match m {
        None => out.push_str("?"),
        Some(Meaning::Other) => out.push_str("none"),
        Some(Meaning::Constant(value)) => constant(alloc, *value, out),
        Some(Meaning::Signal(k)) => known(k, out),
    }
}

fn drawn(alloc: Global, d: &Drawing, entries: &Entries) -> Result<String, AllocError> {
    let mut out = String::new(alloc);
    for name in entries.names().as_slice() {
        out.push_str(" ")?;
        bytes_shown(name.as_slice(), &mut out)?;
        out.push_str("=")?;
        meaning(alloc, d.scope.meaning(name.as_slice()), &mut out)?;
    }
    for placed in &d.signals {
        signal(alloc, &placed.signal, &mut out)?;
    }
    Ok(out)
}

fn module_shown(alloc: Global, given: &Given, module: &Module) -> Result<String, AllocError> {
    let mut d = Drawing {
        scope: Scope::new(alloc),
        signals: Vec::new(alloc),
    };
    let head = module.parameters.as_slice();
    let ports = module.ports.as_slice();
    match open_scope(
        alloc,
        &mut d,
        b"u.",
        given,
        head,
        ports,
        module.items.as_slice(),
    ) {
        Ok(entries) => drawn(alloc, &d, &entries),
        Err(fault) => stopped(alloc, fault),
    }
}

fn shown(alloc: Global, given: &Given, text: &str) -> Result<String, Fail> {
    let found = modules(alloc, text)?;
    let module = first(&found)?;
    Ok(module_shown(alloc, given, module)?)
}

// The first row that is not answered so, with what came instead.
fn first_wrong(
    alloc: Global,
    given: &Given,
    rows: &[(&str, &str)],
) -> Result<Option<String>, Fail> {
    for (text, want) in rows {
        let got = shown(alloc, given, *text)?;
        if !is_wanted(got.as_str(), *want)? {
            return Ok(Some(format!(in alloc; "{want} / {got}")?));
        }
    }
    Ok(None)
}

// The same where nothing is given.
fn wrong(alloc: Global, rows: &[(&str, &str)]) -> Result<Option<String>, Fail> {
    first_wrong(alloc, &Given::none(alloc), rows)
}

#[test]
fn parameters_use_earlier_ones(rt: HostRuntime) -> Result<(), Fail> {
    let rows: [(&str, &str); 4] = [
        (
            "module m; parameter W = 4; parameter [2:0] P = W + 9; endmodule",
            " W=32s4 P=3u5",
        ),
        (
            "module m #(parameter A = 8'd200, B = A + 8'd100); localparam C = B - A; endmodule",
            " A=8u200 B=8u44 C=8u100",
        ),
        (
            "module m #(parameter A = 2, parameter [A:0] B = 15); endmodule",
            " A=32s2 B=3u7",
        ),
        (
            "module m; genvar g; leaf u (); parameter A = 1; generate parameter B = A; endgenerate endmodule",
            " g=none u=none A=32s1 B=32s1",
        ),
    ];
    assert_eq!(rt; wrong(rt.alloc(), &rows)?, None);
    Ok(())
}

#[test]
fn a_parameter_is_assigned_its_value(rt: HostRuntime) -> Result<(), Fail> {
    let rows: [(&str, &str); 6] = [
        (
            "module m; parameter signed A = 8'd200; endmodule",
            " A=8s200",
        ),
        (
            "module m; parameter signed [7:0] A = -1; endmodule",
            " A=8s255",
        ),
        ("module m; parameter [7:0] A = 4'sd9; endmodule", " A=8u249"),
        ("module m; parameter [7:0] A = 4'd9; endmodule", " A=8u9"),
        ("module m; parameter A = 4'd15 + 4'd1; endmodule", " A=4u0"),
        (
            "module m; parameter [0:4] A = 4'd15 + 4'd1; endmodule",
            " A=5u16",
        ),
    ];
    assert_eq!(rt; wrong(rt.alloc(), &rows)?, None);
    Ok(())
}

#[test]
fn a_parameter_without_a_value_is_named(rt: HostRuntime) -> Result<(), Fail> {
    let rows: [(&str, &str); 6] = [
        (
            "module m; parameter A = B; parameter B = 1; endmodule",
            "NotConstant 1:25",
        ),
        (
            "module m; parameter A = 1 + w; wire w; endmodule",
            "NotConstant 1:29",
        ),
        ("module m; parameter A = C; endmodule", "Undeclared C 1:25"),
        (
            "module m; parameter [128:0] A = 1; endmodule",
            "TooWide 1:22",
        ),
        (
            "module m; parameter [65536:0] A = 1; endmodule",
            "BadRange 1:22",
        ),
        (
            "module m; wire [65536:0] a; parameter A = C; endmodule",
            "Undeclared C 1:43",
        ),
    ];
    assert_eq!(rt; wrong(rt.alloc(), &rows)?, None);
    Ok(())
}

fn number(alloc: Global, width: u32, bits: u128) -> Result<Expr, AllocError> {
    let number = Number {
        sized: true,
        signed: false,
        base: Base::Decimal,
        width,
        bits,
        z: 0,
    };
    let place = Place {
        file: 0,
        line: 9,
        col: 9,
    };
    Ok(Expr::Number(place, Boxed::new(alloc, number)?))
}

fn give(alloc: Global, given: &mut Given, name: &[u8], bits: u128) -> Result<(), AllocError> {
    given.give(name.to_vec(alloc)?, number(alloc, 8, bits)?)
}

#[test]
fn a_given_value_takes_the_place_of_the_own_one(rt: HostRuntime) -> Result<(), Fail> {
    let mut given = Given::none(rt.alloc());
    give(rt.alloc(), &mut given, b"W", 6)?;
    give(rt.alloc(), &mut given, b"S", 30)?;
    let rows: [(&str, &str); 4] = [
        (
            "module m #(parameter W = 4); parameter [2:0] P = W + 9; endmodule",
            " W=8u6 P=3u7",
        ),
        (
            "module m; parameter signed [3:0] S = 0; localparam W = 5; endmodule",
            " S=4s14 W=32s5",
        ),
        (
            "module m; parameter signed W = x; wire [W:0] a; endmodule",
            " W=8s6 a=u.a; u.a wire [6:0]",
        ),
        ("module m; parameter V = 1; endmodule", " V=32s1"),
    ];
    assert_eq!(rt; first_wrong(rt.alloc(), &given, &rows)?, None);
    Ok(())
}

#[test]
fn signals_stand_in_the_order_of_the_text(rt: HostRuntime) -> Result<(), Fail> {
    let rows: [(&str, &str); 5] = [
        (
            "module m (input a, b, output reg [3:0] q, r); endmodule",
            " a=u.a in b=u.b in q=u.q r=u.r; u.a wire; u.b wire; u.q reg [3:0]; u.r reg [3:0]",
        ),
        (
            "module m #(parameter W = 4) (input [W-1:0] a, output reg q); wire signed [0:7] b; integer i; reg r; endmodule",
            " W=32s4 a=u.a in q=u.q b=u.b i=u.i r=u.r; u.a wire [3:0]; u.q reg; u.b wire signed [0:7]; u.i integer signed [31:0]; u.r reg",
        ),
        (
            "module m (b, a); wire c; input signed a; output [W:0] b; parameter W = 2; endmodule",
            " b=u.b a=u.a in c=u.c W=32s2; u.c wire; u.a wire signed; u.b wire [2:0]",
        ),
        (
            "module m (q); reg signed [7:0] q; output [3:0] q; endmodule",
            " q=u.q; u.q reg signed [3:0]",
        ),
        (
            "module m; wire [0:0] a, b = 1; generate reg [5:5] c; endgenerate if (1) wire d; endmodule",
            " a=u.a b=u.b c=u.c; u.a wire [0:0]; u.b wire [0:0]; u.c reg [5:5]",
        ),
    ];
    assert_eq!(rt; wrong(rt.alloc(), &rows)?, None);
    Ok(())
}

#[test]
fn a_range_has_limits(rt: HostRuntime) -> Result<(), Fail> {
    let rows: [(&str, &str); 8] = [
        ("module m; wire [65536:0] a; endmodule", "BadRange 1:17"),
        (
            "module m; wire [65535:65535] a; endmodule",
            " a=u.a; u.a wire [65535:65535]",
        ),
        ("module m; wire [-1:0] a; endmodule", "BadRange 1:17"),
        ("module m; reg [3:2-3] a; endmodule", "BadRange 1:18"),
        ("module m; reg [1025:1] a; endmodule", "WidthLimit 1:16"),
        (
            "module m; reg [1024:1] a; endmodule",
            " a=u.a; u.a reg [1024:1]",
        ),
        (
            "module m (output [0:1023] a); endmodule",
            " a=u.a; u.a wire [0:1023]",
        ),
        ("module m (input [0:1024] a); endmodule", "WidthLimit 1:18"),
    ];
    assert_eq!(rt; wrong(rt.alloc(), &rows)?, None);
    Ok(())
}

#[test]
fn declarations_are_refused_before_values(rt: HostRuntime) -> Result<(), Fail> {
    let rows: [(&str, &str); 5] = [
        (
            "module m; parameter P = x; wire a; wire a; endmodule",
            "TwiceDeclared a 1:41",
        ),
        ("module m (a); parameter P = x; endmodule", "NoPort a 1:11"),
        (
            "module m; wire a; wire [a:0] b; endmodule",
            "NotConstant 1:25",
        ),
        ("module m; wire [c:0] b; endmodule", "Undeclared c 1:17"),
        (
            "module m; wire [3:g] b; genvar g; endmodule",
            "NotConstant 1:19",
        ),
    ];
    assert_eq!(rt; wrong(rt.alloc(), &rows)?, None);
    Ok(())
}
