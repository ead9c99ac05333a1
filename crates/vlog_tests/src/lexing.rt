//! Texts and their tokens, worked by hand from the rules.
ghost use Rattle.std.specs.Prelude.{◌≡◌, ◌+◌, length, IfOk};

use rdc_outside::{Place, Seq, Text};
use std::alloc::{AllocError, Global};
use std::test::Fail;
use vlog_lex::{Kind, LexFault, Token, lex};

// A text of one line, whose columns are counted from 0.
fn text_of(alloc: Global, bytes: &[u8]) -> Result<Text, AllocError>
    ensures { IfOk result (λ t. length t.places ≡ length t.bytes + 1) }
{
    let mut places = Vec::new(alloc);
    for i in 0..bytes.len() {
        let col = if i < 1000 { i as u32 } else { 1000 };
        places.push(Place {
            file: 0,
            line: 1,
            col,
        })?;
    }
    places.push(Place {
        file: 0,
        line: 2,
        col: 0,
    })?;
    Ok(Text {
        bytes: Seq::from_vec(Vec::from_slice(alloc, bytes)?),
        places: Seq::from_vec(places),
        files: Seq::new(alloc),
    })
}

// A token's first letter and its span.
fn token_shown(alloc: Global, token: Token) -> Result<String, AllocError> {
    let letter = match token.kind {
        Kind::Identifier => 'I',
        Kind::Number => 'N',
        Kind::Str => 'S',
        Kind::Mark => 'M',
    };
    let from = token.from;
    let to = token.to;
    format!(in alloc; "{letter}{from}-{to} ")
}

fn fault_shown(alloc: Global, fault: LexFault) -> Result<String, AllocError> {
    match fault {
        LexFault::Memory => String::from_str(alloc, "Memory"),
        LexFault::BadByte(place) => {
            let col = place.col;
            format!(in alloc; "BadByte {col} ")
        }
        LexFault::BadNumber(place) => {
            let col = place.col;
            format!(in alloc; "BadNumber {col} ")
        }
        LexFault::OpenComment(place) => {
            let col = place.col;
            format!(in alloc; "OpenComment {col} ")
        }
        LexFault::OpenString(place) => {
            let col = place.col;
            format!(in alloc; "OpenString {col} ")
        }
    }
}

// The tokens of a line, or its fault, each with a blank behind it.
fn shown(alloc: Global, bytes: &[u8]) -> Result<String, AllocError> {
    let text = text_of(alloc, bytes)?;
    match lex(alloc, &text) {
        Err(fault) => fault_shown(alloc, fault),
        Ok(tokens) => {
            let mut all = String::new(alloc);
            for token in tokens.as_slice() {
                let one = token_shown(alloc, *token)?;
                all.push_str(one.as_str())?;
            }
            Ok(all)
        }
    }
}

// The first row that the lexer does not read as it should.
fn first_wrong(alloc: Global, rows: &[(&[u8], &str)]) -> Result<Option<usize>, AllocError> {
    for (i, (bytes, want)) in rows.iter().enumerate() {
        let got = shown(alloc, *bytes)?;
        if got.as_str() != *want {
            return Ok(Some(i));
        }
    }
    Ok(None)
}

#[test]
fn names_are_the_longest(rt: HostRuntime) -> Result<(), Fail> {
    let rows: [(&[u8], &str); 19] = [
        (b"", ""),
        (b"a", "I0-1 "),
        (b"_a$1", "I0-4 "),
        (b"$display", "I0-8 "),
        (b"$1", "I0-2 "),
        (b"$$", "I0-2 "),
        (b"$", "BadByte 0 "),
        (b"a $ b", "BadByte 2 "),
        (b"\\a+b c", "I0-4 I5-6 "),
        (b"\\end", "I0-4 "),
        (b"\\ a", "BadByte 0 "),
        (b"\\", "BadByte 0 "),
        (b"a\\b", "I0-1 I1-3 "),
        (b"\\a\xffb ", "BadByte 2 "),
        (b"a\xff", "BadByte 1 "),
        (b"module m;", "I0-6 I7-8 M8-9 "),
        (b"\\a//b c", "I0-5 I6-7 "),
        (b"a`b", "BadByte 1 "),
        (b"\\`x y", "I0-3 I4-5 "),
    ];
    assert_eq!(rt; first_wrong(rt.alloc(), &rows)?, None);
    Ok(())
}

#[test]
fn numbers_have_a_size_a_base_and_its_digits(rt: HostRuntime) -> Result<(), Fail> {
    let rows: [(&[u8], &str); 36] = [
        (b"12", "N0-2 "),
        (b"1_000", "N0-5 "),
        (b"4294967295", "N0-10 "),
        (b"4294967296", "BadNumber 0 "),
        (b"04294967295", "N0-11 "),
        (b"8'b1010_1010", "N0-12 "),
        (b"8'B1", "N0-4 "),
        (b"8 'h ff", "N0-7 "),
        (b"128'h0", "N0-6 "),
        (b"129'h0", "BadNumber 0 "),
        (b"0'h0", "BadNumber 0 "),
        (b"1_6'd5", "N0-6 "),
        (b"008'o17", "N0-7 "),
        (b"'d5", "N0-3 "),
        (b"'Sd5", "N0-4 "),
        (b"8'sb1", "N0-5 "),
        (b"8'b12", "BadNumber 0 "),
        (b"8'b1a", "N0-4 I4-5 "),
        (b"8'o8", "BadNumber 0 "),
        (b"8'hxZ?_f", "N0-8 "),
        (b"8'dx", "BadNumber 0 "),
        (b"4'd1z", "BadNumber 0 "),
        (b"4'd1?", "BadNumber 0 "),
        (b"8'b_1", "BadNumber 0 "),
        (b"8'b", "BadNumber 0 "),
        (b"a 'q", "BadNumber 2 "),
        (b"'", "BadNumber 0 "),
        (b"8's b1", "BadNumber 0 "),
        (b"8 ;", "N0-1 M2-3 "),
        (b"8b", "N0-1 I1-2 "),
        (b"8 /**/'b1", "N0-1 N6-9 "),
        (b"1.5", "N0-1 M1-2 N2-3 "),
        (b"4'b1?a", "N0-5 I5-6 "),
        (b"x = 129'h0", "BadNumber 4 "),
        (b"12'habcg", "N0-7 I7-8 "),
        (b"1'b1:1'b0", "N0-4 M4-5 N5-9 "),
    ];
    assert_eq!(rt; first_wrong(rt.alloc(), &rows)?, None);
    Ok(())
}

#[test]
fn strings_end_on_their_line(rt: HostRuntime) -> Result<(), Fail> {
    let rows: [(&[u8], &str); 9] = [
        (b"\"ab\"", "S0-4 "),
        (b"\"\"", "S0-2 "),
        (b"\"ab", "OpenString 0 "),
        (b"\"a\nb\"", "OpenString 0 "),
        (b"x \"", "OpenString 2 "),
        (b"\"\xff\"", "BadByte 1 "),
        (b"\"\xff", "OpenString 0 "),
        (b"\"\\\"", "S0-3 "),
        (b"\"//\"", "S0-4 "),
    ];
    assert_eq!(rt; first_wrong(rt.alloc(), &rows)?, None);
    Ok(())
}

#[test]
fn blanks_and_comments_are_no_tokens(rt: HostRuntime) -> Result<(), Fail> {
    let rows: [(&[u8], &str); 13] = [
        (b" \t\r\n\x0c", ""),
        (b"\x0b", "BadByte 0 "),
        (b"// a\nb", "I5-6 "),
        (b"// a", ""),
        (b"/* a */b", "I7-8 "),
        (b"/* ", "OpenComment 0 "),
        (b"a /*/", "OpenComment 2 "),
        (b"/**/", ""),
        (b"//\xff\n", ""),
        (b"/*\xff*/", ""),
        (b"a/b", "I0-1 M1-2 I2-3 "),
        (b"/* /* */ a", "I9-10 "),
        (b"/***/a", "I5-6 "),
    ];
    assert_eq!(rt; first_wrong(rt.alloc(), &rows)?, None);
    Ok(())
}

#[test]
fn marks_are_the_longest(rt: HostRuntime) -> Result<(), Fail> {
    let rows: [(&[u8], &str); 15] = [
        (b"<<<", "M0-3 "),
        (b"<<<=", "M0-3 M3-4 "),
        (b"a<=b", "I0-1 M1-3 I3-4 "),
        (b"====", "M0-3 M3-4 "),
        (b"!==", "M0-3 "),
        (b"**", "M0-2 "),
        (b"~^ ^~ ~| ||", "M0-2 M3-5 M6-8 M9-11 "),
        (b"+: -:", "M0-2 M3-5 "),
        (b"~&&", "M0-2 M2-3 "),
        (b"&&&", "M0-2 M2-3 "),
        (b"->", "M0-1 M1-2 "),
        (b">>> >> >= != ==", "M0-3 M4-6 M7-9 M10-12 M13-15 "),
        (
            b"( ) [ ] { } , ; : .",
            "M0-1 M2-3 M4-5 M6-7 M8-9 M10-11 M12-13 M14-15 M16-17 M18-19 ",
        ),
        (
            b"# @ = + - * / % <",
            "M0-1 M2-3 M4-5 M6-7 M8-9 M10-11 M12-13 M14-15 M16-17 ",
        ),
        (b"> ! ~ & | ^ ?", "M0-1 M2-3 M4-5 M6-7 M8-9 M10-11 M12-13 "),
    ];
    assert_eq!(rt; first_wrong(rt.alloc(), &rows)?, None);
    Ok(())
}

#[test]
fn attributes_are_skipped_and_what_is_none_is_marks(rt: HostRuntime) -> Result<(), Fail> {
    let rows: [(&[u8], &str); 19] = [
        (b"(* full_case *)", ""),
        (b"(* a = 1, b = \"x\" *) c", "I21-22 "),
        (b"(*)", "M0-1 M1-2 M2-3 "),
        (b"(**)", "M0-1 M1-2 M2-3 M3-4 "),
        (b"(* $a *)", "M0-1 M1-2 I3-5 M6-7 M7-8 "),
        (b"(* a b *)", "M0-1 M1-2 I3-4 I5-6 M7-8 M8-9 "),
        (b"(* a = 8'b2 *)", "BadNumber 7 "),
        (b"(*a*)b", "I5-6 "),
        (b"(* \\a *) *)", "M9-10 M10-11 "),
        (b"(* a, *)", "M0-1 M1-2 I3-4 M4-5 M6-7 M7-8 "),
        (b"(* a /* c */ // d\n *)", ""),
        (b"(* a (* b *) *)", "M0-1 M1-2 I3-4 M13-14 M14-15 "),
        (b"( * a * )", "M0-1 M2-3 I4-5 M6-7 M8-9 "),
        (b"(*a=b*)", "M0-1 M1-2 I2-3 M3-4 I4-5 M5-6 M6-7 "),
        (b"@(*)", "M0-1 M1-2 M2-3 M3-4 "),
        (b"(* a", "M0-1 M1-2 I3-4 "),
        (b"(* a = \"x", "OpenString 7 "),
        (b"(** a)", "M0-1 M1-2 M2-3 I4-5 M5-6 "),
        (b"(* a /*", "OpenComment 5 "),
    ];
    assert_eq!(rt; first_wrong(rt.alloc(), &rows)?, None);
    Ok(())
}
