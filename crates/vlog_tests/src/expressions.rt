//! Expressions and their trees, worked by hand from the grammar.

use crate::shown_expr::{count_of, shown};
use std::alloc::{AllocError, Global};
use std::test::Fail;

// The number of the first row whose text is not shown so.
fn first_wrong(alloc: Global, rows: &[(&str, &str)]) -> Result<Option<usize>, AllocError> {
    for (at, (text, want)) in rows.iter().enumerate() {
        let got = shown(alloc, text.as_bytes())?;
        if got.as_str() != *want {
            return Ok(Some(at));
        }
    }
    Ok(None)
}

#[test]
fn names_and_numbers_are_read(rt: HostRuntime) -> Result<(), Fail> {
    let rows: [(&str, &str); 18] = [
        ("a", "a 1"),
        ("_x$1", "_x$1 1"),
        ("\\a+b c", "a+b 1"),
        ("5", "32s5 1"),
        ("4_294", "32s4294 1"),
        ("8'hfF", "8u255 1"),
        ("8'sb1", "8s1 1"),
        ("'o17", "32u15 1"),
        ("4'd19", "4u3 1"),
        ("3'b1111", "3u7 1"),
        ("4'bz", "4u0z15 1"),
        ("4'b1?", "4u2z1 1"),
        ("8'hz1", "8u1z240 1"),
        ("4'b0z", "4u0z1 1"),
        ("12'o7_7", "12u63 1"),
        ("2'bz1", "2u1z2 1"),
        ("128'h1", "128u1 1"),
        ("4 'b 1", "4u1 1"),
    ];
    assert_eq!(rt; first_wrong(rt.alloc(), &rows)?, None);
    Ok(())
}

#[test]
fn names_and_numbers_are_read_too(rt: HostRuntime) -> Result<(), Fail> {
    let rows: [(&str, &str); 1] = [("1'bz0", "1u0 1")];
    assert_eq!(rt; first_wrong(rt.alloc(), &rows)?, None);
    Ok(())
}

#[test]
fn operators_are_read(rt: HostRuntime) -> Result<(), Fail> {
    let rows: [(&str, &str); 18] = [
        ("8'b1z0", "8u4z2 1"),
        ("a+b", "(+ a b) 3"),
        ("a-b", "(- a b) 3"),
        ("a*b", "(* a b) 3"),
        ("a/b", "(/ a b) 3"),
        ("a%b", "(% a b) 3"),
        ("a**b", "(** a b) 3"),
        ("a<<b", "(<< a b) 3"),
        ("a>>b", "(>> a b) 3"),
        ("a<<<b", "(<<< a b) 3"),
        ("a>>>b", "(>>> a b) 3"),
        ("a<b", "(< a b) 3"),
        ("a<=b", "(<= a b) 3"),
        ("a>b", "(> a b) 3"),
        ("a>=b", "(>= a b) 3"),
        ("a==b", "(== a b) 3"),
        ("a!=b", "(!= a b) 3"),
        ("a===b", "(=== a b) 3"),
    ];
    assert_eq!(rt; first_wrong(rt.alloc(), &rows)?, None);
    Ok(())
}

#[test]
fn operators_are_read_too(rt: HostRuntime) -> Result<(), Fail> {
    let rows: [(&str, &str); 17] = [
        ("a!==b", "(!== a b) 3"),
        ("a&b", "(& a b) 3"),
        ("a^b", "(^ a b) 3"),
        ("a~^b", "(~^ a b) 3"),
        ("a^~b", "(~^ a b) 3"),
        ("a|b", "(| a b) 3"),
        ("a&&b", "(&& a b) 3"),
        ("a||b", "(|| a b) 3"),
        ("+a", "(+ a) 2"),
        ("-a", "(- a) 2"),
        ("!a", "(! a) 2"),
        ("~a", "(~ a) 2"),
        ("&a", "(& a) 2"),
        ("~&a", "(~& a) 2"),
        ("|a", "(| a) 2"),
        ("~|a", "(~| a) 2"),
        ("^a", "(^ a) 2"),
    ];
    assert_eq!(rt; first_wrong(rt.alloc(), &rows)?, None);
    Ok(())
}

#[test]
fn operators_group_by_their_levels(rt: HostRuntime) -> Result<(), Fail> {
    let rows: [(&str, &str); 18] = [
        ("~^a", "(~^ a) 2"),
        ("^~a", "(~^ a) 2"),
        ("a & b == c", "(& a (== b c)) 5"),
        ("a == b & c", "(& (== a b) c) 5"),
        ("a - b - c", "(- (- a b) c) 5"),
        ("a ** b ** c", "(** (** a b) c) 5"),
        ("a + b * c", "(+ a (* b c)) 5"),
        ("a * b + c", "(+ (* a b) c) 5"),
        ("a << b + c", "(<< a (+ b c)) 5"),
        ("a < b << c", "(< a (<< b c)) 5"),
        ("a == b < c", "(== a (< b c)) 5"),
        ("a ^ b & c", "(^ a (& b c)) 5"),
        ("a | b ^ c", "(| a (^ b c)) 5"),
        ("a && b | c", "(&& a (| b c)) 5"),
        ("a || b && c", "(|| a (&& b c)) 5"),
        ("a & b | c & d", "(| (& a b) (& c d)) 7"),
        ("a * b ** c", "(* a (** b c)) 5"),
        ("-a ** -b", "(** (- a) (- b)) 5"),
    ];
    assert_eq!(rt; first_wrong(rt.alloc(), &rows)?, None);
    Ok(())
}

#[test]
fn operators_group_by_their_levels_too(rt: HostRuntime) -> Result<(), Fail> {
    let rows: [(&str, &str); 6] = [
        ("a & &b", "(& a (& b)) 4"),
        ("a | b & c ^ d", "(| a (^ (& b c) d)) 7"),
        ("a + b - c * d / e", "(- (+ a b) (/ (* c d) e)) 9"),
        ("a ? b : c", "(? a b c) 5"),
        ("a ? b : c ? d : e", "(? a b (? c d e)) 9"),
        ("a ? b ? c : d : e", "(? a (? b c d) e) 9"),
    ];
    assert_eq!(rt; first_wrong(rt.alloc(), &rows)?, None);
    Ok(())
}

#[test]
fn brackets_selects_and_concatenations_are_read(rt: HostRuntime) -> Result<(), Fail> {
    let rows: [(&str, &str); 16] = [
        ("a || b ? c + d : e", "(? (|| a b) (+ c d) e) 9"),
        ("a ? b : c | d", "(? a b (| c d)) 7"),
        ("(a)", "(() a) 3"),
        ("(a | b) & c", "(& (() (| a b)) c) 7"),
        ("a[3]", "([] a 32s3) 4"),
        ("a[3:0]", "(: a 32s3 32s0) 6"),
        ("a[i +: 4]", "(+: a i 32s4) 6"),
        ("a[3 -: 2]", "(-: a 32s3 32s2) 6"),
        ("a[b[c]]", "([] a ([] b c)) 7"),
        ("a[x ? y : z]", "([] a (? x y z)) 8"),
        ("a[x ? y : z : w]", "(: a (? x y z) w) 10"),
        ("{a}", "({} a) 3"),
        ("{a, b, c}", "({} a b c) 7"),
        ("{2{a, b}}", "({{}} 32s2 a b) 8"),
        ("{a, {b, c}}", "({} a ({} b c)) 9"),
        ("{W{1'b0}}", "({{}} W 1u0) 6"),
    ];
    assert_eq!(rt; first_wrong(rt.alloc(), &rows)?, None);
    Ok(())
}

#[test]
fn an_expression_ends_where_nothing_goes_on(rt: HostRuntime) -> Result<(), Fail> {
    let rows: [(&str, &str); 9] = [
        ("~{a, b}", "(~ ({} a b)) 6"),
        (
            "{a[0], b[1:0]} == 3'd5",
            "(== ({} ([] a 32s0) (: b 32s1 32s0)) 3u5) 15",
        ),
        ("a b", "a 1"),
        ("a)", "a 1"),
        ("a + b ; c", "(+ a b) 3"),
        ("a[0][1]", "([] a 32s0) 4"),
        ("5[0]", "32s5 1"),
        ("a = b", "a 1"),
        ("a : b", "a 1"),
    ];
    assert_eq!(rt; first_wrong(rt.alloc(), &rows)?, None);
    Ok(())
}

#[test]
fn a_refusal_names_its_token(rt: HostRuntime) -> Result<(), Fail> {
    let rows: [(&str, &str); 18] = [
        ("a # b", "a 1"),
        ("a (b)", "a 1"),
        ("", "Syntax 2:0"),
        ("a +", "Syntax 2:0"),
        ("a[", "Syntax 2:0"),
        ("{a,}", "Syntax 1:3"),
        ("8'hx", "Unsupported 8'hx 1:0"),
        ("$time", "Unsupported $time 1:0"),
        ("a + $time", "Unsupported $time 1:4"),
        ("(a", "Syntax 2:0"),
        ("(a]", "Syntax 1:2"),
        (")", "Syntax 1:0"),
        ("module", "Syntax 1:0"),
        ("initial", "Unsupported initial 1:0"),
        ("a + initial", "Unsupported initial 1:4"),
        ("#", "Unsupported # 1:0"),
        ("(a = b)", "Unsupported = 1:3"),
        ("(a 4'bz)", "Unsupported 4'bz 1:3"),
    ];
    assert_eq!(rt; first_wrong(rt.alloc(), &rows)?, None);
    Ok(())
}

#[test]
fn a_refusal_names_its_token_too(rt: HostRuntime) -> Result<(), Fail> {
    let rows: [(&str, &str); 14] = [
        ("~ ~a", "Syntax 1:2"),
        ("- -a", "Syntax 1:2"),
        ("a ? b", "Syntax 2:0"),
        ("a ? b ;", "Syntax 1:6"),
        ("{}", "Syntax 1:1"),
        ("{a b}", "Syntax 1:3"),
        ("{2{}}", "Syntax 1:3"),
        ("{2{a}", "Syntax 2:0"),
        ("a[1:]", "Syntax 1:4"),
        ("a[1 2]", "Syntax 1:4"),
        ("a + + + b", "Syntax 1:6"),
        ("a * / b", "Syntax 1:4"),
        ("[0]", "Syntax 1:0"),
        ("\"s\"", "Syntax 1:0"),
    ];
    assert_eq!(rt; first_wrong(rt.alloc(), &rows)?, None);
    Ok(())
}

// So many pairs of brackets around a name.
fn nested(alloc: Global, pairs: usize) -> Result<Vec<u8>, AllocError> {
    let mut all = Vec::new(alloc);
    for _i in 0..pairs {
        all.push(b'(')?;
    }
    all.push(b'd')?;
    for _i in 0..pairs {
        all.push(b')')?;
    }
    Ok(all)
}

// So many operands with an operator between.
fn sum(alloc: Global, operands: usize) -> Result<Vec<u8>, AllocError> {
    let mut all = Vec::new(alloc);
    for _i in 0..operands {
        all.push(b'd')?;
        all.push(b'+')?;
    }
    all.push(b'd')?;
    Ok(all)
}

#[test]
fn depth_is_bounded(rt: HostRuntime) -> Result<(), Fail> {
    for (pairs, want) in [
        (240, "481"),
        (254, "509"),
        (255, "TooDeep 1:254"),
        (256, "TooDeep 1:254"),
    ] {
        let text = nested(rt.alloc(), pairs)?;
        let got = count_of(rt.alloc(), text.as_slice())?;
        assert_eq!(rt; got.as_str(), want, "at {pairs}");
    }
    for (operands, want) in [(254, "509"), (255, "TooDeep 1:509"), (300, "TooDeep 1:509")] {
        let text = sum(rt.alloc(), operands)?;
        let got = count_of(rt.alloc(), text.as_slice())?;
        assert_eq!(rt; got.as_str(), want, "at {operands}");
    }
    Ok(())
}
