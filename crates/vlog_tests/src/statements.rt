//! Statements, controls and lists with their trees or stops, worked by hand from the grammar.

use crate::shown_stmt::{control, header, statement};
use std::alloc::{AllocError, Global};
use std::test::Fail;

// The number of the first row whose statement is not shown so.
fn first_wrong(alloc: Global, rows: &[(&str, &str)]) -> Result<Option<usize>, AllocError> {
    for (at, (text, want)) in rows.iter().enumerate() {
        let got = statement(alloc, 255, text.as_bytes())?;
        if got.as_str() != *want {
            return Ok(Some(at));
        }
    }
    Ok(None)
}

// The same with so much room.
fn first_wrong_in(
    alloc: Global,
    rows: &[(usize, &str, &str)],
) -> Result<Option<usize>, AllocError> {
    for (at, (room, text, want)) in rows.iter().enumerate() {
        let got = statement(alloc, *room, text.as_bytes())?;
        if got.as_str() != *want {
            return Ok(Some(at));
        }
    }
    Ok(None)
}

#[test]
fn blocks_and_assignments_are_read(rt: HostRuntime) -> Result<(), Fail> {
    let rows: [(&str, &str); 14] = [
        (";", ";@0, 0"),
        ("begin end", "(begin@0), 0"),
        ("begin : lab ; end", "(begin@0 :lab ;@12), 0"),
        ("begin ; a = b; end x", "(begin@0 ;@6 (=@8 a b)), 1"),
        ("begin begin end end", "(begin@0 (begin@6)), 0"),
        ("a = b;", "(=@0 a b), 0"),
        ("a <= b; c", "(<=@0 a b), 1"),
        ("a <= b <= c;", "(<=@0 a (<= b c)), 0"),
        ("a[i] = b;", "(=@0 ([] a i) b), 0"),
        ("a[3:0] <= b;", "(<=@0 (: a 32s3 32s0) b), 0"),
        ("a[i +: 4] = b;", "(=@0 (+: a i 32s4) b), 0"),
        ("a[i -: 4] = b;", "(=@0 (-: a i 32s4) b), 0"),
        ("{a, b[1]} = c;", "(=@0 ({} a ([] b 32s1)) c), 0"),
        ("{a, {b, c}} <= d;", "(<=@0 ({} a ({} b c)) d), 0"),
    ];
    assert_eq!(rt; first_wrong(rt.alloc(), &rows)?, None);
    Ok(())
}

#[test]
fn an_else_belongs_to_the_nearest_if(rt: HostRuntime) -> Result<(), Fail> {
    let rows: [(&str, &str); 6] = [
        ("if (a) b = c;", "(if@0 a (=@7 b c)), 0"),
        (
            "if (a) b = c; else d = e;",
            "(if@0 a (=@7 b c) (=@19 d e)), 0",
        ),
        (
            "if (a) if (b) x = d; else x = e;",
            "(if@0 a (if@7 b (=@14 x d) (=@26 x e))), 0",
        ),
        (
            "if (a) begin if (b) x = d; end else x = e;",
            "(if@0 a (begin@7 (if@13 b (=@20 x d))) (=@36 x e)), 0",
        ),
        (
            "if (a) if (b) ; else ; else ;",
            "(if@0 a (if@7 b ;@14 ;@21) ;@28), 0",
        ),
        (
            "if (a) ; else if (b) ; else ;",
            "(if@0 a ;@7 (if@14 b ;@21 ;@28)), 0",
        ),
    ];
    assert_eq!(rt; first_wrong(rt.alloc(), &rows)?, None);
    Ok(())
}

#[test]
fn cases_and_loops_are_read(rt: HostRuntime) -> Result<(), Fail> {
    let rows: [(&str, &str); 10] = [
        ("case (s) endcase", "(case@0 s), 0"),
        ("case (s) 1: ; endcase", "(case@0 s (@9 32s1 : ;@12)), 0"),
        (
            "case (s) a, b: x = y; default: ; endcase",
            "(case@0 s (@9 a b : (=@15 x y)) (@22 : ;@31)), 0",
        ),
        ("case (s) default ; endcase", "(case@0 s (@9 : ;@17)), 0"),
        (
            "case (s) default: ; a: ; endcase",
            "(case@0 s (@9 : ;@18) (@20 a : ;@23)), 0",
        ),
        (
            "case (s) a: ; default: ; b: ; endcase",
            "(case@0 s (@9 a : ;@12) (@14 : ;@23) (@25 b : ;@28)), 0",
        ),
        (
            "case (s) a: if (b) ; else ; default ; endcase",
            "(case@0 s (@9 a : (if@12 b ;@19 ;@26)) (@28 : ;@36)), 0",
        ),
        (
            "casez (s) 2'b1?: ; 2'b0z, a: ; endcase",
            "(casez@0 s (@10 2u2z1 : ;@17) (@19 2u0z1 a : ;@29)), 0",
        ),
        (
            "for (i = 0; i < 4; i = i + 1) a[i] = b;",
            "(for@0 i 32s0 (< i 32s4) i (+ i 32s1) (=@30 ([] a i) b)), 0",
        ),
        ("for (i = 0; a; j = b) ;", "(for@0 i 32s0 a j b ;@22), 0"),
    ];
    assert_eq!(rt; first_wrong(rt.alloc(), &rows)?, None);
    Ok(())
}

#[test]
fn a_reader_stops_in_front_of_what_is_wrong(rt: HostRuntime) -> Result<(), Fail> {
    let rows: [(&str, &str); 14] = [
        ("", "Wrong at the end"),
        ("end", "Wrong at 0"),
        ("initial a = b;", "Wrong at 0"),
        ("else ;", "Wrong at 0"),
        ("5 = a;", "Wrong at 0"),
        ("a", "Wrong at the end"),
        ("a b", "Wrong at 2"),
        ("a = b", "Wrong at the end"),
        ("a = ;", "Wrong at 4"),
        ("a = 4'bz;", "Wrong at 4"),
        ("a[1 = b;", "Wrong at 4"),
        ("a[0][1] = b;", "Wrong at 4"),
        ("{a, 5} = b;", "Wrong at 4"),
        ("{} = b;", "Wrong at 1"),
    ];
    assert_eq!(rt; first_wrong(rt.alloc(), &rows)?, None);
    Ok(())
}

#[test]
fn a_reader_stops_within_a_statement(rt: HostRuntime) -> Result<(), Fail> {
    let rows: [(&str, &str); 12] = [
        ("case (s) 2'b1?: ; endcase", "Wrong at 9"),
        ("casez (4'bz) endcase", "Wrong at 7"),
        ("case (s) default: ; default: ; endcase", "Wrong at 20"),
        ("casez (s) default ; a: ; default ; endcase", "Wrong at 25"),
        ("case (s) a ; endcase", "Wrong at 11"),
        ("case (s) a: ;", "Wrong at the end"),
        ("if a ;", "Wrong at 3"),
        ("if (a) else ;", "Wrong at 7"),
        ("begin ;", "Wrong at the end"),
        ("begin : 5 end", "Wrong at 8"),
        ("for (i = 0; a; 5 = b) ;", "Wrong at 15"),
        ("for (i[0] = 0; a; i = b) ;", "Wrong at 6"),
    ];
    assert_eq!(rt; first_wrong(rt.alloc(), &rows)?, None);
    Ok(())
}

#[test]
fn depth_is_bounded(rt: HostRuntime) -> Result<(), Fail> {
    let rows: [(usize, &str, &str); 16] = [
        (0, ";", "Deep at 0"),
        (0, "end", "Wrong at 0"),
        (1, ";", ";@0, 0"),
        (1, "begin end", "(begin@0), 0"),
        (1, "begin ; end", "Deep at 6"),
        (2, "begin ; end", "(begin@0 ;@6), 0"),
        (1, "begin : l end", "Deep at 6"),
        (2, "begin : l end", "(begin@0 :l), 0"),
        (1, "a = b;", "Deep at 0"),
        (2, "a = b;", "(=@0 a b), 0"),
        (2, "a[i] = b;", "Deep at 1"),
        (3, "a[i] = b;", "(=@0 ([] a i) b), 0"),
        (2, "a = b + c;", "Deep at 6"),
        (1, "if (a) ;", "Deep at 0"),
        (2, "if (a) b = c;", "Deep at 7"),
        (3, "if (a) b = c;", "(if@0 a (=@7 b c)), 0"),
    ];
    assert_eq!(rt; first_wrong_in(rt.alloc(), &rows)?, None);
    Ok(())
}

#[test]
fn controls_are_read(rt: HostRuntime) -> Result<(), Fail> {
    let rows: [(usize, &str, &str); 17] = [
        (0, "*", "*, 0"),
        (0, "(*) a", "*, 1"),
        (0, "( * )", "*, 0"),
        (0, "(a)", "Deep at 1"),
        (1, "(a)", " a, 0"),
        (
            1,
            "(posedge clk or negedge rst_n) ;",
            " posedge clk negedge rst_n, 1",
        ),
        (1, "(a, b or c)", " a b c, 0"),
        (1, "(a[0])", "Deep at 2"),
        (2, "(posedge c[1])", " posedge c at 32s1, 0"),
        (255, "a", "Wrong at 0"),
        (255, "()", "Wrong at 1"),
        (255, "(a", "Wrong at the end"),
        (255, "(a b)", "Wrong at 3"),
        (255, "(a or )", "Wrong at 6"),
        (255, "(posedge 5)", "Wrong at 9"),
        (255, "(* a)", "Wrong at 3"),
        (255, "(a or *)", "Wrong at 6"),
    ];
    for (depth, text, want) in rows {
        let got = control(rt.alloc(), depth, text.as_bytes())?;
        assert_eq!(rt; got.as_str(), want);
    }
    Ok(())
}

#[test]
fn headers_are_read(rt: HostRuntime) -> Result<(), Fail> {
    for (room, text, want) in [
        (1, "(i = 0; a; j = b) begin", " i 32s0 a j b, 1"),
        (0, "(i = 0; a; j = b)", "Deep at 5"),
        (255, "(i = 0, a; j = b)", "Wrong at 6"),
    ] {
        let got = header(rt.alloc(), room, text.as_bytes())?;
        assert_eq!(rt; got.as_str(), want);
    }
    Ok(())
}
