//! Expressions in a scope, and what constants are worth.
//!
//! An expression stands on the second line from the twelfth column on, and the scope's prefix is `u.`.

use crate::faults::stopped;
use crate::reading::{WANT, first, is_wanted, modules};
use crate::shown::{constant as put_constant, value};
use elab_names::{ElabFault, Scope, constant, constant_within, put_in};
use elab_scopes::{Drawing, Given, open_scope};
use std::alloc::{AllocError, Global};
use std::test::Fail;
use vlog_const::ConstValue;
use vlog_tree::{Assignment, Expr, Item, Module};

const HEAD: &str =
    "module m; parameter P = 6; parameter signed [3:0] S = -1; genvar g; wire w; reg [7:0] v; leaf l ();\nassign w = ";

// What is asked of an expression.
#[derive(Clone, Copy)]
enum Asked {
    Put,
    Alone,
    Within(u32),
}

fn put(alloc: Global, e: &Expr, scope: &Scope) -> Result<String, AllocError> {
    match put_in(alloc, e, scope) {
        Ok(e) => {
            let mut out = String::new(alloc);
            value(alloc, &e, &mut out)?;
            Ok(out)
        }
        Err(fault) => stopped(alloc, fault),
    }
}

fn worth(alloc: Global, answer: Result<ConstValue, ElabFault>) -> Result<String, AllocError> {
    match answer {
        Ok(value) => {
            let mut out = String::new(alloc);
            put_constant(alloc, value, &mut out)?;
            Ok(out)
        }
        Err(fault) => stopped(alloc, fault),
    }
}

fn answered(alloc: Global, asked: Asked, e: &Expr, scope: &Scope) -> Result<String, AllocError> {
    match asked {
        Asked::Put => put(alloc, e, scope),
        Asked::Alone => worth(alloc, constant(alloc, e, scope)),
        Asked::Within(width) => worth(alloc, constant_within(alloc, e, scope, width)),
    }
}

// The scope of a module, behind the prefix.
pub(crate) fn scope_of(alloc: Global, module: &Module) -> Result<Drawing, Fail> {
    let mut d = Drawing {
        scope: Scope::new(alloc),
        signals: Vec::new(alloc),
    };
    let given = Given::none(alloc);
    let head = module.parameters.as_slice();
    let ports = module.ports.as_slice();
    match open_scope(
        alloc,
        &mut d,
        b"u.",
        &given,
        head,
        ports,
        module.items.as_slice(),
    ) {
        Ok(_) => Ok(d),
        Err(ElabFault::Memory) => Err(Fail::new(WANT)),
        Err(_) => Err(Fail::new("no scope")),
    }
}

// What is assigned in the last item.
fn assigned(module: &Module) -> Result<&Assignment, Fail> {
    let Some(Item::Assign(_, assignments)) = module.items.as_slice().last() else {
        return Err(Fail::new("no assignment"));
    };
    match assignments.as_slice().first() {
        Some(a) => Ok(a),
        None => Err(Fail::new("no assignment")),
    }
}

fn shown(alloc: Global, asked: Asked, text: &str) -> Result<String, Fail> {
    let found = modules(alloc, text)?;
    let module = first(&found)?;
    let d = scope_of(alloc, module)?;
    let a = assigned(module)?;
    Ok(answered(alloc, asked, &a.value, &d.scope)?)
}

// The first row that is not answered so, with what came instead.
fn first_wrong(alloc: Global, asked: Asked, rows: &[(&str, &str)]) -> Result<Option<String>, Fail> {
    for (e, want) in rows {
        let text = format!(in alloc; "{HEAD}{e}; endmodule")?;
        let got = shown(alloc, asked, text.as_str())?;
        if !is_wanted(got.as_str(), *want)? {
            return Ok(Some(format!(in alloc; "{e}: {want} / {got}")?));
        }
    }
    Ok(None)
}

#[test]
fn signals_are_printed_and_constants_are_numbers(rt: HostRuntime) -> Result<(), Fail> {
    let rows: [(&str, &str); 10] = [
        ("w", "u.w"),
        ("P", "32s6"),
        ("S", "4s15"),
        ("(8'd3)", "(8u3)"),
        ("P + v[w]", "(32s6.u.v[u.w])"),
        ("{P, ~w}", "{ 32s6 .u.w }"),
        ("{P{w, S}}", "32s6{ u.w 4s15 }"),
        ("w ? P : v", "(u.w?32s6:u.v)"),
        ("v[P:1]", "u.v[32s6:32s1]"),
        ("v[w +: P] - v[P -: 2]", "(u.v[u.w+:32s6].u.v[32s6-:32s2])"),
    ];
    assert_eq!(rt; first_wrong(rt.alloc(), Asked::Put, &rows)?, None);
    Ok(())
}

#[test]
fn a_select_of_a_constant_is_a_number(rt: HostRuntime) -> Result<(), Fail> {
    let rows: [(&str, &str); 8] = [
        ("P[2]", "1u1"),
        ("P[0]", "1u0"),
        ("P[2:1]", "2u3"),
        ("P[P - 3:0]", "4u6"),
        ("P[1 +: 3]", "3u3"),
        ("S[3 -: 2]", "2u3"),
        ("S[3:0]", "4u15"),
        ("v[P[2:1]]", "u.v[2u3]"),
    ];
    assert_eq!(rt; first_wrong(rt.alloc(), Asked::Put, &rows)?, None);
    Ok(())
}

#[test]
fn a_constant_has_its_positions_alone(rt: HostRuntime) -> Result<(), Fail> {
    let rows: [(&str, &str); 10] = [
        ("P[31]", "1u0"),
        ("P[32]", "BadRange 2:12"),
        ("1 + S[4]", "BadRange 2:16"),
        ("P[-1]", "BadRange 2:12"),
        ("P[1:2]", "BadRange 2:12"),
        ("S[4:3]", "BadRange 2:12"),
        ("S[3 +: 2]", "BadRange 2:12"),
        ("S[0 -: 2]", "BadRange 2:12"),
        ("S[1 +: 0]", "BadRange 2:12"),
        ("S[w:0]", "NotConstant 2:14"),
    ];
    assert_eq!(rt; first_wrong(rt.alloc(), Asked::Put, &rows)?, None);
    Ok(())
}

#[test]
fn a_name_without_a_value_is_named(rt: HostRuntime) -> Result<(), Fail> {
    let rows: [(&str, &str); 7] = [
        ("x", "Undeclared x 2:12"),
        ("w & x[y]", "Undeclared x 2:16"),
        ("v[x + y]", "Undeclared x 2:14"),
        ("g", "NotConstant 2:12"),
        ("g[x]", "NotConstant 2:12"),
        ("w | l", "NotConstant 2:16"),
        ("{w, {2{x}}}", "Undeclared x 2:19"),
    ];
    assert_eq!(rt; first_wrong(rt.alloc(), Asked::Put, &rows)?, None);
    Ok(())
}

#[test]
fn a_constant_has_no_signal(rt: HostRuntime) -> Result<(), Fail> {
    let rows: [(&str, &str); 8] = [
        ("P + 1", "32s7"),
        ("P == 6", "1u1"),
        ("4'd15 + 4'd1", "4u0"),
        ("P[2:1] + 1", "32u4"),
        ("w", "NotConstant 2:12"),
        ("1 + v[0]", "NotConstant 2:16"),
        ("P / (P - 6)", "ZeroDivisor 2:16"),
        ("{5{P}}", "TooWide 2:12"),
    ];
    assert_eq!(rt; first_wrong(rt.alloc(), Asked::Alone, &rows)?, None);
    let wide: [(&str, &str); 3] = [("4'd15 + 4'd1", "8u16"), ("S", "8s255"), ("P", "32s6")];
    assert_eq!(rt; first_wrong(rt.alloc(), Asked::Within(8), &wide)?, None);
    Ok(())
}
