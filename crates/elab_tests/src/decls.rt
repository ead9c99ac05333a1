//! What a scope declares, and why its declarations are refused.
//!
//! A name is shown with its port's direction, its form and its sign, as far as they are known.

use crate::faults::refused;
use crate::reading::{first, is_wanted, modules};
use crate::shown::bytes_shown;
use elab_decls::{Entries, Entry, Form, declared};
use std::alloc::{AllocError, Global};
use std::test::Fail;
use vlog_tree::{Direction, Item, Module};

fn way(direction: Option<Direction>) -> &'static str {
    match direction {
        None => "",
        Some(Direction::Input) => " in",
        Some(Direction::Output) => " out",
        Some(Direction::Register) => " out-reg",
    }
}

fn kind(form: Option<Form>) -> &'static str {
    match form {
        None => "",
        Some(Form::Wire) => " wire",
        Some(Form::Register) => " reg",
        Some(Form::Integer) => " integer",
        Some(Form::Genvar) => " genvar",
        Some(Form::Thing) => " thing",
    }
}

fn entry(e: &Entry, out: &mut String) -> Result<(), AllocError> {
    out.push_str(if e.listed { " listed" } else { "" })?;
    out.push_str(way(e.direction))?;
    out.push_str(kind(e.form))?;
    out.push_str(if e.signed { " signed;" } else { ";" })
}

fn table(alloc: Global, entries: &Entries) -> Result<String, AllocError> {
    let mut out = String::new(alloc);
    for name in entries.names().as_slice() {
        bytes_shown(name.as_slice(), &mut out)?;
        if let Some(e) = entries.get(name.as_slice()) {
            entry(e, &mut out)?;
        }
    }
    Ok(out)
}

fn module_shown(alloc: Global, module: &Module) -> Result<String, AllocError> {
    let parameters = module.parameters.as_slice();
    let ports = module.ports.as_slice();
    match declared(alloc, parameters, ports, module.items.as_slice()) {
        Ok(entries) => table(alloc, &entries),
        Err(fault) => refused(alloc, fault),
    }
}

fn shown(alloc: Global, text: &str) -> Result<String, Fail> {
    let found = modules(alloc, text)?;
    let module = first(&found)?;
    Ok(module_shown(alloc, module)?)
}

// The first row that is not answered so, with what came instead.
fn first_wrong(alloc: Global, rows: &[(&str, &str)]) -> Result<Option<String>, Fail> {
    for (text, want) in rows {
        let got = shown(alloc, *text)?;
        if !is_wanted(got.as_str(), *want)? {
            return Ok(Some(format!(in alloc; "{want} / {got}")?));
        }
    }
    Ok(None)
}

#[test]
fn names_stand_in_the_order_of_the_text(rt: HostRuntime) -> Result<(), Fail> {
    let rows: [(&str, &str); 4] = [
        (
            "module m (input a, b, output reg signed [3:0] q, r, input c); endmodule",
            "a in;b in;q out-reg reg signed;r out-reg reg signed;c in;",
        ),
        (
            "module m #(parameter W = 4, parameter signed D = 2) (input clk, input wire [3:0] a, output signed b, output reg q); endmodule",
            "W thing;D thing;clk in;a in;b out signed;q out-reg reg;",
        ),
        (
            "module m; wire n, k; reg signed r; integer i; genvar g; parameter P = 1; localparam L = 2; endmodule",
            "n wire;k wire;r reg signed;i integer;g genvar;P thing;L thing;",
        ),
        (
            "module m; assign n = 1; and g1 (n, a, b), (k, a, b); leaf u (a), v (b); generate reg z; wire y; endgenerate wire x; endmodule",
            "g1 thing;u thing;v thing;z reg;y wire;x wire;",
        ),
    ];
    assert_eq!(rt; first_wrong(rt.alloc(), &rows)?, None);
    Ok(())
}

#[test]
fn a_port_that_stands_alone_is_declared_by_items(rt: HostRuntime) -> Result<(), Fail> {
    let rows: [(&str, &str); 4] = [
        (
            "module m (a, q, b); input a; output q; reg q; wire b; input b; endmodule",
            "a listed in;q listed out reg;b listed in wire;",
        ),
        (
            "module m (q, r); reg q; output q; output reg r; endmodule",
            "q listed out reg;r listed out-reg reg;",
        ),
        (
            "module m (q, r); output signed q; reg q; wire signed r; output r; endmodule",
            "q listed out reg signed;r listed out wire signed;",
        ),
        (
            "module m (q, r); wire a; output r; input q; endmodule",
            "q listed in;r listed out;a wire;",
        ),
    ];
    assert_eq!(rt; first_wrong(rt.alloc(), &rows)?, None);
    Ok(())
}

#[test]
fn a_generate_block_has_names_of_its_own(rt: HostRuntime) -> Result<(), Fail> {
    let rows: [(&str, &str); 3] = [
        (
            "module m; wire a; if (1) begin : b wire a; reg c; end else reg e; endmodule",
            "a wire;",
        ),
        (
            "module m; genvar g; for (g = 0; g < 2; g = g + 1) begin : r wire a; end wire a; endmodule",
            "g genvar;a wire;",
        ),
        (
            "module m; generate case (1) 1: wire d; default: wire d; endcase wire d; endgenerate endmodule",
            "d wire;",
        ),
    ];
    assert_eq!(rt; first_wrong(rt.alloc(), &rows)?, None);
    Ok(())
}

#[test]
fn a_name_is_declared_once(rt: HostRuntime) -> Result<(), Fail> {
    let rows: [(&str, &str); 8] = [
        (
            "module m; wire a; wire a; endmodule",
            "TwiceDeclared a 1:24",
        ),
        (
            "module m; reg b, a, a, b; endmodule",
            "TwiceDeclared a 1:21",
        ),
        (
            "module m; genvar g; wire g; endmodule",
            "TwiceDeclared g 1:26",
        ),
        (
            "module m; parameter A = 1; integer A; endmodule",
            "TwiceDeclared A 1:36",
        ),
        (
            "module m #(parameter P = 1) (input P); endmodule",
            "TwiceDeclared P 1:36",
        ),
        (
            "module m (a, a); input a; endmodule",
            "TwiceDeclared a 1:14",
        ),
        (
            "module m; and g (a, b), g (a, c); endmodule",
            "TwiceDeclared g 1:25",
        ),
        (
            "module m; wire \\a ; wire a; endmodule",
            "TwiceDeclared a 1:26",
        ),
    ];
    assert_eq!(rt; first_wrong(rt.alloc(), &rows)?, None);
    Ok(())
}

#[test]
fn a_port_is_declared_once_more_at_most(rt: HostRuntime) -> Result<(), Fail> {
    let rows: [(&str, &str); 9] = [
        (
            "module m (a); input a; reg a; endmodule",
            "TwiceDeclared a 1:28",
        ),
        (
            "module m (a); reg a; input a; endmodule",
            "TwiceDeclared a 1:28",
        ),
        (
            "module m (q); output reg q; reg q; endmodule",
            "TwiceDeclared q 1:33",
        ),
        (
            "module m (q); output reg q; wire q; endmodule",
            "TwiceDeclared q 1:34",
        ),
        (
            "module m (q); output q; reg q; wire q; endmodule",
            "TwiceDeclared q 1:37",
        ),
        (
            "module m (a); input a; output a; endmodule",
            "TwiceDeclared a 1:31",
        ),
        (
            "module m (input a); input a; endmodule",
            "TwiceDeclared a 1:27",
        ),
        (
            "module m (input a); wire a; endmodule",
            "TwiceDeclared a 1:26",
        ),
        (
            "module m (a); input a; integer a; endmodule",
            "TwiceDeclared a 1:32",
        ),
    ];
    assert_eq!(rt; first_wrong(rt.alloc(), &rows)?, None);
    Ok(())
}

#[test]
fn a_direction_is_that_of_a_listed_name(rt: HostRuntime) -> Result<(), Fail> {
    let rows: [(&str, &str); 5] = [
        ("module m (a); input a; input z; endmodule", "NoPort z 1:30"),
        ("module m; wire a; output a; endmodule", "NoPort a 1:26"),
        ("module m (a, b); input a; endmodule", "NoPort b 1:14"),
        (
            "module m (a, b); wire a, b; output b; endmodule",
            "NoPort a 1:11",
        ),
        (
            "module m (a); wire b; wire b; endmodule",
            "TwiceDeclared b 1:28",
        ),
    ];
    assert_eq!(rt; first_wrong(rt.alloc(), &rows)?, None);
    Ok(())
}

// What the items of a generate block declare.
fn block(alloc: Global, module: &Module) -> Result<String, AllocError> {
    let [Item::If(_, _, yes, _)] = module.items.as_slice() else {
        return Ok(String::new(alloc));
    };
    match declared(alloc, &[], &[], yes.items.as_slice()) {
        Ok(entries) => table(alloc, &entries),
        Err(fault) => refused(alloc, fault),
    }
}

#[test]
fn a_generate_block_has_no_ports(rt: HostRuntime) -> Result<(), Fail> {
    let found = modules(
        rt.alloc(),
        "module m; if (1) begin : b wire a; input z; end endmodule",
    )?;
    let got = block(rt.alloc(), first(&found)?)?;
    assert!(rt; is_wanted(got.as_str(), "NoPort z 1:42")?);
    Ok(())
}
