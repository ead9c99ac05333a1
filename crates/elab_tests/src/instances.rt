//! What an instance passes: the module or box of its name, the values of parameters, and the drivers of ports.
//!
//! An instance stands on the second line, and its module behind it. The scope's prefix is `u.` and the instance's `u.l.`.

use crate::drivers::{draft_of, drafted};
use crate::faults::stopped;
use crate::names::scope_of;
use crate::reading::{first, is_wanted, modules};
use crate::shown::{bytes_shown, value};
use elab_binds::{bind, given, parameter_names, pins_of_module};
use elab_decls::declared;
use elab_drivers::Draft;
use elab_names::Scope;
use elab_scopes::Given;
use rdc_outside::{Place, Seq};
use std::alloc::{AllocError, Global};
use std::test::Fail;
use vlog_tree::{Connections, Item, Module, Port};

const HEAD: &str = "module m (input n, output o); parameter P = 1; wire a; wire [3:0] b; reg r;\n";

const LEAF: &str =
    " endmodule module leaf #(parameter W = 1, D = 2) (input x, output y, output z, input v); parameter E = 3; localparam L = 4; if (W) parameter G = 5; generate parameter F = 6; endgenerate endmodule";

// Where connections stand that are too many.
const HERE: Place = Place {
    file: 0,
    line: 2,
    col: 1,
};

fn second(found: &[Module]) -> Result<&Module, Fail> {
    match found {
        [_, module, ..] => Ok(module),
        _ => Err(Fail::new("no second module")),
    }
}

// What is given to parameters.
fn values(alloc: Global, names: &[Seq<u8>], given: &Given) -> Result<String, AllocError> {
    let mut out = String::new(alloc);
    for name in names {
        if let Some(e) = given.get(name.as_slice()) {
            out.push_str(" ")?;
            bytes_shown(name.as_slice(), &mut out)?;
            out.push_str("=")?;
            value(alloc, e, &mut out)?;
        }
    }
    Ok(out)
}

fn given_shown(
    alloc: Global,
    passed: &Connections,
    names: &[Seq<u8>],
    scope: &Scope,
) -> Result<String, AllocError> {
    match given(alloc, passed, names, scope, HERE) {
        Ok(found) => values(alloc, names, &found),
        Err(fault) => stopped(alloc, fault),
    }
}

// What the last item passes to parameters.
fn passed(module: &Module) -> Result<&Connections, Fail> {
    match module.items.as_slice().last() {
        Some(Item::Instances(_, _, passed, _)) => Ok(passed),
        _ => Err(Fail::new("no instance")),
    }
}

fn parameters_shown(alloc: Global, text: &str) -> Result<String, Fail> {
    let found = modules(alloc, text)?;
    let module = first(&found)?;
    let leaf = second(found.as_slice())?;
    let d = scope_of(alloc, module)?;
    let names = parameter_names(alloc, leaf.parameters.as_slice(), leaf.items.as_slice())?;
    Ok(given_shown(alloc, passed(module)?, names.as_slice(), &d.scope)?)
}

// The first row that is not answered so, with what came instead.
fn first_given(alloc: Global, rows: &[(&str, &str)]) -> Result<Option<String>, Fail> {
    for (item, want) in rows {
        let text = format!(in alloc; "{HEAD}{item}{LEAF}")?;
        let got = parameters_shown(alloc, text.as_str())?;
        if !is_wanted(got.as_str(), *want)? {
            return Ok(Some(format!(in alloc; "{item}: {want} / {got}")?));
        }
    }
    Ok(None)
}

#[test]
fn parameters_are_given_in_order_or_by_name(rt: HostRuntime) -> Result<(), Fail> {
    let rows: [(&str, &str); 6] = [
        ("leaf #(7, P) l ();", " W=32s7 D=32s1"),
        (
            "leaf #(7, 2'd3, P + 1, b[P]) l ();",
            " W=32s7 D=2u3 E=(32s1.32s1) F=u.b[32s1]",
        ),
        ("leaf #(.E(P), .W(5)) l ();", " W=32s5 E=32s1"),
        ("leaf #(.D(), .F(1)) l ();", " F=32s1"),
        ("leaf l ();", ""),
        ("leaf #(a) l ();", " W=u.a"),
    ];
    assert_eq!(rt; first_given(rt.alloc(), &rows)?, None);
    Ok(())
}

#[test]
fn what_is_no_parameter_is_not_given(rt: HostRuntime) -> Result<(), Fail> {
    let rows: [(&str, &str); 6] = [
        ("leaf #(1, 2, 3, 4, 5) l ();", "PortCount 2:1"),
        ("leaf #(.L(1)) l ();", "NoPort L 2:9"),
        ("leaf #(.G(1)) l ();", "NoPort G 2:9"),
        ("leaf #(.W(1), .W(2)) l ();", "TwiceDeclared W 2:16"),
        ("leaf #(.W(x), .L(1)) l ();", "Undeclared x 2:11"),
        ("leaf #(1, x) l ();", "Undeclared x 2:11"),
    ];
    assert_eq!(rt; first_given(rt.alloc(), &rows)?, None);
    Ok(())
}

// What the last item's first instance binds.
fn bound(module: &Module) -> Result<&Connections, Fail> {
    let Some(Item::Instances(_, _, _, instances)) = module.items.as_slice().last() else {
        return Err(Fail::new("no instance"));
    };
    match instances.as_slice().first() {
        Some(one) => Ok(&one.connections),
        None => Err(Fail::new("no instance")),
    }
}

fn bound_shown(
    alloc: Global,
    d: &mut Draft,
    ports: &[Port],
    connections: &Connections,
) -> Result<String, AllocError> {
    let Ok(entries) = declared(alloc, &[], ports, &[]) else {
        return String::from_str(alloc, "no ports");
    };
    let pins = pins_of_module(alloc, ports, &entries)?;
    match bind(alloc, d, b"u.l.", pins.as_slice(), connections, HERE) {
        Ok(()) => drafted(alloc, d),
        Err(fault) => stopped(alloc, fault),
    }
}

fn ports_shown(alloc: Global, text: &str) -> Result<String, Fail> {
    let found = modules(alloc, text)?;
    let module = first(&found)?;
    let leaf = second(found.as_slice())?;
    let mut d = draft_of(alloc, module)?;
    let connections = bound(module)?;
    Ok(bound_shown(alloc, &mut d, leaf.ports.as_slice(), connections)?)
}

// The first row that is not answered so, with what came instead.
fn first_bound(alloc: Global, rows: &[(&str, &str)]) -> Result<Option<String>, Fail> {
    for (item, want) in rows {
        let text = format!(in alloc; "{HEAD}{item}{LEAF}")?;
        let got = ports_shown(alloc, text.as_str())?;
        if !is_wanted(got.as_str(), *want)? {
            return Ok(Some(format!(in alloc; "{item}: {want} / {got}")?));
        }
    }
    Ok(None)
}

#[test]
fn inputs_are_driven_and_outputs_drive(rt: HostRuntime) -> Result<(), Fail> {
    let rows: [(&str, &str); 5] = [
        (
            "leaf l (n, a, , P);",
            " 2:9 u.l.x=u.n 2:12 u.a=u.l.y 2:17 u.l.v=32s1",
        ),
        (
            "leaf l (.y(b[0]), .x(~n));",
            " 2:12 u.b[32s0]=u.l.y 2:22 u.l.x=.u.n",
        ),
        (
            "leaf l (r, {a, b[3:2]}, o);",
            " 2:9 u.l.x=u.r 2:12 { u.a u.b[32s3:32s2] }=u.l.y 2:25 u.o=u.l.z",
        ),
        ("leaf l ();", ""),
        ("leaf l (.v(n), .x());", " 2:12 u.l.v=u.n"),
    ];
    assert_eq!(rt; first_bound(rt.alloc(), &rows)?, None);
    Ok(())
}

#[test]
fn what_can_not_be_bound_is_named(rt: HostRuntime) -> Result<(), Fail> {
    let rows: [(&str, &str); 8] = [
        ("leaf l (n, a, o, n, a);", "PortCount 2:1"),
        ("leaf l (n, r);", "NotAssignable 2:12"),
        ("leaf l (n, n);", "NotAssignable 2:12"),
        ("leaf l (n, ~a);", "NotAssignable 2:12"),
        ("leaf l (, b[r]);", "NotConstant 2:13"),
        ("leaf l (.W(n));", "NoPort W 2:10"),
        ("leaf l (.x(n), .x());", "TwiceDeclared x 2:17"),
        ("leaf l (x);", "Undeclared x 2:9"),
    ];
    assert_eq!(rt; first_bound(rt.alloc(), &rows)?, None);
    Ok(())
}
