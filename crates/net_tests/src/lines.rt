//! Files by hand: their lines, or the line of the fault and its word.

use cons_file::{ConsFault, Line, LineForm, one_file, read_constraints};
use std::alloc::{AllocError, Global};
use std::test::Fail;

fn level(high: bool) -> &'static str {
    if high { "high" } else { "low" }
}

fn digit(one: bool) -> u8 {
    if one { 1 } else { 0 }
}

// A line's number and its form, the parts set apart by bars.
fn line_shown(alloc: Global, line: &Line) -> Result<String, AllocError> {
    let n = line.number;
    match line.form {
        LineForm::Clock(port) => format!(in alloc; "{n} clock|{port}\n"),
        LineForm::Reset(name, high) => {
            let level = level(high);
            format!(in alloc; "{n} reset|{name}|{level}\n")
        }
        LineForm::Tie(port, one) => {
            let digit = digit(one);
            format!(in alloc; "{n} tie|{port}|{digit}\n")
        }
        LineForm::Steady(port) => format!(in alloc; "{n} steady|{port}\n"),
        LineForm::Track(name) => format!(in alloc; "{n} track|{name}\n"),
        LineForm::Order(first, second) => format!(in alloc; "{n} order|{first}|{second}\n"),
        LineForm::Isolate(reset, bit, one) => {
            let digit = digit(one);
            format!(in alloc; "{n} isolate|{reset}|{bit}|{digit}\n")
        }
        LineForm::Quiet(reset, clock) => format!(in alloc; "{n} quiet|{reset}|{clock}\n"),
        LineForm::Waive(flop, reason) => format!(in alloc; "{n} waive|{flop}|{reason}|\n"),
    }
}

fn fault_shown(alloc: Global, fault: ConsFault) -> Result<String, AllocError> {
    match fault {
        ConsFault::Memory => String::from_str(alloc, "memory"),
        ConsFault::Version(n) => format!(in alloc; "version {n}"),
        ConsFault::BadLine(n) => format!(in alloc; "badline {n}"),
    }
}

// The lines of a short file, or its fault.
fn shown(alloc: Global, bytes: &[u8]) -> Result<String, AllocError> {
    if bytes.len() > 1000 {
        return String::from_str(alloc, "long");
    }
    match read_constraints(alloc, bytes) {
        Err(fault) => fault_shown(alloc, fault),
        Ok(lines) => {
            let mut all = String::new(alloc);
            for line in &lines {
                let one = line_shown(alloc, line)?;
                all.push_str(one.as_str())?;
            }
            Ok(all)
        }
    }
}

// The first row that is not read as it should.
fn first_wrong(alloc: Global, rows: &[(&[u8], &str)]) -> Result<Option<usize>, AllocError> {
    for (i, (bytes, want)) in rows.iter().enumerate() {
        let got = shown(alloc, *bytes)?;
        if got.as_str() != *want {
            return Ok(Some(i));
        }
    }
    Ok(None)
}

#[test]
fn each_form_is_read(rt: HostRuntime) -> Result<(), Fail> {
    let rows: [(&[u8], &str); 31] = [
        (b"rdc 1", ""),
        (b"rdc 1\nclock c", "2 clock|c\n"),
        (b"rdc 1\nreset r low", "2 reset|r|low\n"),
        (b"rdc 1\nreset r high", "2 reset|r|high\n"),
        (b"rdc 1\ntie p 0", "2 tie|p|0\n"),
        (b"rdc 1\ntie p 1", "2 tie|p|1\n"),
        (b"rdc 1\nsteady p", "2 steady|p\n"),
        (b"rdc 1\ntrack q", "2 track|q\n"),
        (b"rdc 1\norder a before b", "2 order|a|b\n"),
        (b"rdc 1\nisolate r when s is 0", "2 isolate|r|s|0\n"),
        (b"rdc 1\nisolate r when s is 1", "2 isolate|r|s|1\n"),
        (b"rdc 1\nquiet r c", "2 quiet|r|c\n"),
        (
            b"rdc 1\nwaive f known crossing",
            "2 waive|f|known crossing|\n",
        ),
        // blanks, and both line ends
        (b" \t rdc \t 1 \t\n\tclock\tc \n", "2 clock|c\n"),
        (b"rdc 1\r\nclock c\r\nclock d\r\n", "2 clock|c\n3 clock|d\n"),
        (
            b"\n\n\r\n \t\nrdc 1\n\n\nclock c\n\nclock d",
            "8 clock|c\n10 clock|d\n",
        ),
        // comments
        (
            b"# \xc3\xa9\nrdc 1#\xff\n#clock c\nclock d#e\n",
            "4 clock|d\n",
        ),
        (
            b"rdc 1\nclock c # a\rb\r\nclock d#\r\n",
            "2 clock|c\n3 clock|d\n",
        ),
        (b"rdc 1\nreset r low # no end\r", "2 reset|r|low\n"),
        // reasons
        (
            b"rdc 1\nwaive f  two  blanks \t # not this",
            "2 waive|f|two  blanks|\n",
        ),
        (b"rdc 1\nwaive f a#b\n", "2 waive|f|a|\n"),
        (b"rdc 1\nwaive f a\rb\r\n", "2 waive|f|a\rb|\n"),
        (b"rdc 1\nwaive f a\r", "2 waive|f|a\r|\n"),
        (
            b"rdc 1\n\twaive\tf\twaive f\twaive",
            "2 waive|f|waive f\twaive|\n",
        ),
        (b"rdc 1\nwaive before when", "2 waive|before|when|\n"),
        // names
        (b"rdc 1\ntrack u1.q[3]", "2 track|u1.q[3]\n"),
        (
            b"rdc 1\norder g[2].u.a[0] before u1.b",
            "2 order|g[2].u.a[0]|u1.b\n",
        ),
        (b"rdc 1\nclock a+b\nclock //c", "2 clock|a+b\n3 clock|//c\n"),
        (
            b"rdc 1\norder before before before",
            "2 order|before|before\n",
        ),
        (b"rdc 1\nisolate is when when is 1", "2 isolate|is|when|1\n"),
        (
            b"rdc 1\nclock clock\nreset low low",
            "2 clock|clock\n3 reset|low|low\n",
        ),
    ];
    assert_eq!(rt; first_wrong(rt.alloc(), &rows)?, None);
    one_file();
    Ok(())
}

#[test]
fn faults_have_their_line_and_word(rt: HostRuntime) -> Result<(), Fail> {
    let rows: [(&[u8], &str); 46] = [
        // no version
        (b"", "version 1"),
        (b"\n", "version 1"),
        (b"\n\n # rdc 1\n", "version 1"),
        (b"rdc", "version 1"),
        (b"rdc 2\n", "version 1"),
        (b"rdc 01\n", "version 1"),
        (b"rdc 1 1\n", "version 1"),
        (b"rdc1\n", "version 1"),
        (b"RDC 1\n", "version 1"),
        (b"\n#\r\nclock c\nrdc 1\n", "version 3"),
        (b"rdc 1\r", "version 1"),
        (b"rdc 1\rclock c\n", "version 1"),
        (b"\xef\xbb\xbfrdc 1\n", "version 1"),
        (b"\n\xc3\xa9 #\n", "version 2"),
        // no form
        (b"rdc 1\nrdc 1\n", "badline 2"),
        (b"rdc 1\nclok c\n", "badline 2"),
        (b"rdc 1\nclock c\n\n# a\nclock\n", "badline 5"),
        (b"rdc 1\r\n\r\nclock a b\r\nclock\r\n", "badline 3"),
        (b"rdc 1\nclock c\nCLOCK c\nclock", "badline 3"),
        (b"rdc 1\nreset r", "badline 2"),
        (b"rdc 1\nreset r Low", "badline 2"),
        (b"rdc 1\nreset r 0", "badline 2"),
        (b"rdc 1\nreset r low low", "badline 2"),
        (b"rdc 1\nreset r low\r", "badline 2"),
        (b"rdc 1\nreset low", "badline 2"),
        (b"rdc 1\ntie p", "badline 2"),
        (b"rdc 1\ntie p 2", "badline 2"),
        (b"rdc 1\ntie p high", "badline 2"),
        (b"rdc 1\ntie p 0 1", "badline 2"),
        (b"rdc 1\nsteady", "badline 2"),
        (b"rdc 1\nsteady a b", "badline 2"),
        (b"rdc 1\ntrack a b", "badline 2"),
        (b"rdc 1\norder a b", "badline 2"),
        (b"rdc 1\norder a after b", "badline 2"),
        (b"rdc 1\norder a before", "badline 2"),
        (b"rdc 1\norder a before b c", "badline 2"),
        (b"rdc 1\nisolate r when s is 2", "badline 2"),
        (b"rdc 1\nisolate r when s 1", "badline 2"),
        (b"rdc 1\nisolate r if s is 1", "badline 2"),
        (b"rdc 1\nisolate r when s is 1 1", "badline 2"),
        (b"rdc 1\nquiet r", "badline 2"),
        (b"rdc 1\nquiet r c d", "badline 2"),
        (b"rdc 1\nwaive f", "badline 2"),
        (b"rdc 1\nwaive f # a reason", "badline 2"),
        (b"rdc 1\nwaive f caf\xc3\xa9 # c", "badline 2"),
        (b"rdc 1\n\x0b\n", "badline 2"),
    ];
    assert_eq!(rt; first_wrong(rt.alloc(), &rows)?, None);
    Ok(())
}
