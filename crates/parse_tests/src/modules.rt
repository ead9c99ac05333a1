//! Modules and their trees, worked by hand from the grammar.

use crate::sample::EVERY;
use crate::shown::shown;
use std::alloc::{AllocError, Global};
use std::test::Fail;

// The number of the first row whose text is not answered so.
fn first_wrong(alloc: Global, rows: &[(&str, &str)]) -> Result<Option<usize>, AllocError> {
    for (at, (text, want)) in rows.iter().enumerate() {
        let got = shown(alloc, text.as_bytes(), 99, 0)?;
        if got.as_str() != *want {
            return Ok(Some(at));
        }
    }
    Ok(None)
}

// The same of items of a text: module, item, and what is shown.
fn first_other(
    alloc: Global,
    text: &str,
    rows: &[(usize, usize, &str)],
) -> Result<Option<usize>, AllocError> {
    for (at, (module, number, want)) in rows.iter().enumerate() {
        let got = shown(alloc, text.as_bytes(), *module, *number)?;
        if got.as_str() != *want {
            return Ok(Some(at));
        }
    }
    Ok(None)
}

#[test]
fn what_the_profile_leaves_out_is_named(rt: HostRuntime) -> Result<(), Fail> {
    let rows: [(&str, &str); 16] = [
        (
            "module m; initial y = 0; endmodule",
            "Unsupported initial 1:11",
        ),
        ("module m; specify endmodule", "Unsupported specify 1:11"),
        (
            "module m; function f; endmodule",
            "Unsupported function 1:11",
        ),
        ("module m; task t; endmodule", "Unsupported task 1:11"),
        ("module m; tri a; endmodule", "Unsupported tri 1:11"),
        ("module m; supply0 a; endmodule", "Unsupported supply0 1:11"),
        ("module m; real a; endmodule", "Unsupported real 1:11"),
        ("module m; time a; endmodule", "Unsupported time 1:11"),
        ("module m; event a; endmodule", "Unsupported event 1:11"),
        (
            "module m; defparam a.B = 1; endmodule",
            "Unsupported defparam 1:11",
        ),
        (
            "module m; bufif0 (a, b, c); endmodule",
            "Unsupported bufif0 1:11",
        ),
        ("module m; pullup (a); endmodule", "Unsupported pullup 1:11"),
        (
            "module m; specparam A = 1; endmodule",
            "Unsupported specparam 1:11",
        ),
        ("module m(inout a); endmodule", "Unsupported inout 1:10"),
        ("module m(input tri a); endmodule", "Unsupported tri 1:16"),
        (
            "module m(a); output wand a; endmodule",
            "Unsupported wand 1:21",
        ),
    ];
    assert_eq!(rt; first_wrong(rt.alloc(), &rows)?, None);
    Ok(())
}

#[test]
fn what_the_profile_leaves_out_is_named_too(rt: HostRuntime) -> Result<(), Fail> {
    let rows: [(&str, &str); 16] = [
        (
            "module m; wire vectored [1:0] a; endmodule",
            "Unsupported vectored 1:16",
        ),
        (
            "module m; wire scalared [1:0] a; endmodule",
            "Unsupported scalared 1:16",
        ),
        ("module m; reg time a; endmodule", "Unsupported time 1:15"),
        (
            "module m; always @* casex (a) endcase endmodule",
            "Unsupported casex 1:21",
        ),
        (
            "module m; always @* while (a) ; endmodule",
            "Unsupported while 1:21",
        ),
        (
            "module m; always @* repeat (3) ; endmodule",
            "Unsupported repeat 1:21",
        ),
        (
            "module m; always @* forever ; endmodule",
            "Unsupported forever 1:21",
        ),
        (
            "module m; always @* fork join endmodule",
            "Unsupported fork 1:21",
        ),
        (
            "module m; always @* begin wait (a) ; end endmodule",
            "Unsupported wait 1:27",
        ),
        (
            "module m; always @* disable a; endmodule",
            "Unsupported disable 1:21",
        ),
        (
            "module m; always @* force a = 1; endmodule",
            "Unsupported force 1:21",
        ),
        (
            "module m; always @* begin deassign a; end endmodule",
            "Unsupported deassign 1:27",
        ),
        (
            "module m; always @* a = $time; endmodule",
            "Unsupported $time 1:25",
        ),
        (
            "module m; always @* $display; endmodule",
            "Unsupported $display 1:21",
        ),
        ("module m; always #5 a = 1; endmodule", "Unsupported # 1:18"),
        ("module m; and #1 (a, b); endmodule", "Unsupported # 1:15"),
    ];
    assert_eq!(rt; first_wrong(rt.alloc(), &rows)?, None);
    Ok(())
}

#[test]
fn the_rest_of_what_is_left_out_is_named(rt: HostRuntime) -> Result<(), Fail> {
    let rows: [(&str, &str); 12] = [
        (
            "module m; and (strong0) (a, b); endmodule",
            "Unsupported strong0 1:16",
        ),
        (
            "module m; assign a = 4'bx0; endmodule",
            "Unsupported 4'bx0 1:22",
        ),
        (
            "module m; assign a = b + 2'bz; endmodule",
            "Unsupported 2'bz 1:26",
        ),
        (
            "module m; always @* case (a) 2'b1?: ; endcase endmodule",
            "Unsupported 2'b1? 1:30",
        ),
        (
            "module m; always @* casez (a) 2'b1?, 2'bx1: ; endcase endmodule",
            "Unsupported 2'bx1 1:38",
        ),
        ("module m; reg a [3:0]; endmodule", "Unsupported [ 1:17"),
        ("module m; reg a = 0; endmodule", "Unsupported = 1:17"),
        ("module m; n u [3:0] (a); endmodule", "Unsupported [ 1:15"),
        ("primitive p; endmodule", "Unsupported primitive 1:1"),
        ("macromodule m; endmodule", "Unsupported macromodule 1:1"),
        ("config c; endmodule", "Unsupported config 1:1"),
        ("module m; endmodule library l;", "Unsupported library 1:21"),
    ];
    assert_eq!(rt; first_wrong(rt.alloc(), &rows)?, None);
    Ok(())
}

#[test]
fn a_plain_fault_names_its_token(rt: HostRuntime) -> Result<(), Fail> {
    let rows: [(&str, &str); 17] = [
        ("module m; endmodule endmodule", "Syntax 1:21"),
        ("module m endmodule", "Syntax 1:10"),
        ("module m; wire a endmodule", "Syntax 1:18"),
        ("module m; assign a[1] [0] = b; endmodule", "Syntax 1:23"),
        ("module m; assign a <= b; endmodule", "Syntax 1:20"),
        (
            "module m; always @* if (a) ; else ; else ; endmodule",
            "Syntax 1:37",
        ),
        (
            "module m; always @* case (a) default: ; default: ; endcase endmodule",
            "Syntax 1:41",
        ),
        (
            "module m; for (i = 0; i < 4; i = i + 1) begin a b(); end endmodule",
            "Syntax 1:47",
        ),
        ("module m; assign a = ~ ~b; endmodule", "Syntax 1:24"),
        ("module module; endmodule", "Syntax 1:8"),
        ("module m; parameter A; endmodule", "Syntax 1:22"),
        (
            "module m; always @(posedge a or ) ; endmodule",
            "Syntax 1:33",
        ),
        ("module m(a, input b); endmodule", "Syntax 1:13"),
        ("module m; n u(.a(b), c); endmodule", "Syntax 1:22"),
        ("module m; n u(a, .b(c)); endmodule", "Syntax 1:18"),
        ("module m; generate module n; endmodule", "Syntax 1:20"),
        ("module m;", "Syntax 1:10"),
    ];
    assert_eq!(rt; first_wrong(rt.alloc(), &rows)?, None);
    Ok(())
}

#[test]
fn modules_are_counted(rt: HostRuntime) -> Result<(), Fail> {
    let rows: [(&str, &str); 5] = [
        ("", "0 modules"),
        ("module m; endmodule", "1 modules"),
        ("module m; endmodule module n; endmodule", "2 modules"),
        ("module m(); n u(); endmodule", "1 modules"),
        ("module \\module ; endmodule", "1 modules"),
    ];
    assert_eq!(rt; first_wrong(rt.alloc(), &rows)?, None);
    Ok(())
}

#[test]
fn an_initial_block_is_named_where_it_stands(rt: HostRuntime) -> Result<(), Fail> {
    let text = "module i(input d, output reg y);\n  initial y = 0;\nendmodule\n";
    let got = shown(rt.alloc(), text.as_bytes(), 0, 0)?;
    assert!(rt; got.as_str() == "Unsupported initial 2:3");
    Ok(())
}

#[test]
fn an_else_belongs_to_the_nearest_if(rt: HostRuntime) -> Result<(), Fail> {
    let text =
        "module m; always @* if (a) if (b) x = d; else x = e; endmodule module n; if (A) if (B) reg x; else reg y; endmodule";
    let rows: [(usize, usize, &str); 2] = [
        (0, 0, "always * if a <if b <x=d> else <x=e>>"),
        (1, 0, "if A < if B < reg x > else < reg y > >"),
    ];
    assert_eq!(rt; first_other(rt.alloc(), text, &rows)?, None);
    Ok(())
}

#[test]
fn each_production_is_read(rt: HostRuntime) -> Result<(), Fail> {
    let rows: [(usize, usize, &str); 21] = [
        (99, 0, "8 modules"),
        (0, 2, "input signed [0:0] one two"),
        (0, 5, "wire signed [3:0] s0=LOW[3:0] s1"),
        (0, 11, "parameter [3:0] FROM=2 TO=(FROM.1)"),
        (
            0,
            14,
            "assign s1[0]=b { done s1[2:1] }=2{ a } s1[3-:1]=(a?b:c)",
        ),
        (0, 16, "gates n0{ x1 a b } n1{ x2 a b }"),
        (0, 24, "leaf() u1( a  b) u2( a)"),
        (0, 27, "leaf( .W=8 .D=) u5( .x=(a.b))"),
        (
            0,
            32,
            "always -pair <named held=0 if a <if b <d=1> else <d=0>> for i=0 (i.4) i=(i.1) <count[i]<=a>>",
        ),
        (
            0,
            33,
            "always a case pair 0 1: <d=a> 2: << d=b c=a>> default: <;> 3: <{ c d }=pair>",
        ),
        (
            0,
            36,
            "generate < for g=0 (g.W) g=(g.1) bits < wire local leaf() u( local) > if (W.4) < wire four > else < if (W.4) big < wire five > else < > > case W 1 2: < wire tiny > default: < wire other wire another > >",
        ),
        (0, 39, "for h=0 (h.2) h=(h.1) rows < >"),
        (1, 2, "output y2"),
        (4, 0, "generate < >"),
        (
            4,
            1,
            "generate < if ONLY < > if (ONLY.1) first < generate < reg inner > > case ONLY case ONLY default: < > 1: < if ONLY < reg yes > else < reg no > > 2 3: both < > >",
        ),
        (
            6,
            9,
            "wire [3:0] low=plain[3:0] up=plain[4+:4] down=plain[11-:4]",
        ),
        (6, 11, "wire [7:0] twice=2{ low bit0 }"),
        (6, 13, "wire [3:0] chosen=(bit0?low:(up?down:0))"),
        (6, 14, "wire [3:0] most=((low.up).down)"),
        (7, 2, "always clk ;"),
        (
            7,
            3,
            "always +clk +rst < q=0 { q s[1:0] }<=1 <inner> for k=3 (k.0) k=(k.1) << if rst <;> else <case s 0: <;> default: <casez s>>>>>",
        ),
    ];
    assert_eq!(rt; first_other(rt.alloc(), EVERY, &rows)?, None);
    Ok(())
}

// A text between its ends: so many copies of a part, the middle, and as many copies of another part.
fn nested(
    alloc: Global,
    ends: (&str, &str),
    count: usize,
    parts: (&str, &str, &str),
) -> Result<String, AllocError> {
    let mut out = String::from_str(alloc, ends.0)?;
    for _ in 0..count {
        out.push_str(parts.0)?;
    }
    out.push_str(parts.1)?;
    for _ in 0..count {
        out.push_str(parts.2)?;
    }
    out.push_str(ends.1)?;
    Ok(out)
}

// What is said of such a text.
fn said(
    alloc: Global,
    ends: (&str, &str),
    count: usize,
    parts: (&str, &str, &str),
) -> Result<String, AllocError> {
    let text = nested(alloc, ends, count, parts)?;
    shown(alloc, text.as_bytes(), 99, 0)
}

#[test]
fn an_expression_is_at_most_255_deep(rt: HostRuntime) -> Result<(), Fail> {
    let ends = ("module m; assign a = ", "; endmodule");
    let fits = said(rt.alloc(), ends, 254, ("(", "b", ")"))?;
    let deep = said(rt.alloc(), ends, 255, ("(", "b", ")"))?;
    let wrong = said(rt.alloc(), ends, 254, ("(", ";", ")"))?;
    assert!(rt; fits.as_str() == "1 modules");
    assert!(rt; deep.as_str() == "TooDeep 1:276");
    assert!(rt; wrong.as_str() == "Syntax 1:276");
    Ok(())
}

#[test]
fn a_statement_is_at_most_255_deep(rt: HostRuntime) -> Result<(), Fail> {
    let ends = ("module m; always @* ", " endmodule");
    let fits = said(rt.alloc(), ends, 255, ("begin ", "", " end"))?;
    let deep = said(rt.alloc(), ends, 256, ("begin ", "", " end"))?;
    let wrong = said(rt.alloc(), ends, 255, ("begin ", ")", " end"))?;
    let chosen = said(rt.alloc(), ends, 254, ("if (a) ", ";", ""))?;
    let more = said(rt.alloc(), ends, 255, ("if (a) ", ";", ""))?;
    assert!(rt; fits.as_str() == "1 modules");
    assert!(rt; deep.as_str() == "TooDeep 1:1551");
    assert!(rt; wrong.as_str() == "Syntax 1:1551");
    assert!(rt; chosen.as_str() == "1 modules");
    assert!(rt; more.as_str() == "TooDeep 1:1799");
    Ok(())
}

#[test]
fn an_item_is_at_most_255_deep(rt: HostRuntime) -> Result<(), Fail> {
    let ends = ("module m; ", " endmodule");
    let fits = said(
        rt.alloc(),
        ends,
        254,
        ("generate ", "reg b;", " endgenerate"),
    )?;
    let deep = said(rt.alloc(), ends, 256, ("generate ", "", " endgenerate"))?;
    let wrong = said(rt.alloc(), ends, 255, ("generate ", ";", " endgenerate"))?;
    let chosen = said(rt.alloc(), ends, 254, ("if (a) ", ";", ""))?;
    let more = said(rt.alloc(), ends, 255, ("if (a) ", ";", ""))?;
    assert!(rt; fits.as_str() == "1 modules");
    assert!(rt; deep.as_str() == "TooDeep 1:2306");
    assert!(rt; wrong.as_str() == "Syntax 1:2306");
    assert!(rt; chosen.as_str() == "1 modules");
    assert!(rt; more.as_str() == "TooDeep 1:1789");
    Ok(())
}
