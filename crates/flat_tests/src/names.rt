//! Names: declared once, declared where they are used, and assigned where they may be. An item stands on the second line.

use crate::reading::is_wanted;
use crate::shown::{said, wrong};
use std::test::Fail;

const HEAD: &str =
    "module m (input n, output y); parameter P = 1; wire a; wire [3:0] b; reg r; integer i; genvar g;\n";

const TAIL: &str = "\nendmodule module leaf (input x, output z); assign z = x; endmodule";

#[test]
fn a_name_is_declared(rt: HostRuntime) -> Result<(), Fail> {
    let rows: [(&str, &str); 11] = [
        ("assign y = w;", "Undeclared w 2:12"),
        ("assign w = n;", "Undeclared w 2:8"),
        ("wire [w:0] v;", "Undeclared w 2:7"),
        ("always @(posedge w) r <= n;", "Undeclared w 2:18"),
        ("always @* w = n;", "Undeclared w 2:11"),
        ("leaf l (.x(w), .z(y));", "Undeclared w 2:12"),
        ("leaf #(.E(1)) l (n, y);", "NoPort E 2:9"),
        (
            "if (1) begin : k wire w; end assign y = w;",
            "Undeclared w 2:41",
        ),
        ("leaf l (n, y); assign a = x;", "Undeclared x 2:27"),
        (
            "for (i = 0; i < 1; i = i + 1) begin : k end",
            "Undeclared i 2:6",
        ),
        (
            "for (w = 0; w < 1; w = w + 1) begin : k end",
            "Undeclared w 2:6",
        ),
    ];
    assert_eq!(rt; wrong(rt.alloc(), HEAD, TAIL, &rows)?, None);
    Ok(())
}

#[test]
fn a_name_is_declared_once(rt: HostRuntime) -> Result<(), Fail> {
    let rows: [(&str, &str); 11] = [
        ("wire a;", "TwiceDeclared a 2:6"),
        ("reg n;", "TwiceDeclared n 2:5"),
        ("genvar P;", "TwiceDeclared P 2:8"),
        ("leaf b (n, y);", "TwiceDeclared b 2:6"),
        ("and g (y, n, n);", "TwiceDeclared g 2:5"),
        ("if (1) begin : a end", "TwiceDeclared a 2:16"),
        (
            "for (g = 0; g < 1; g = g + 1) begin : r end",
            "TwiceDeclared r 2:39",
        ),
        (
            "if (1) begin : k end if (1) begin : k end",
            "TwiceDeclared k 2:37",
        ),
        ("if (1) begin : k wire w, w; end", "TwiceDeclared w 2:26"),
        ("wire \\b[2] ;", "TwiceDeclared b[2] 2:6"),
        ("if (1) wire \\b[0] ;", "TwiceDeclared b[0] 2:13"),
    ];
    assert_eq!(rt; wrong(rt.alloc(), HEAD, TAIL, &rows)?, None);
    Ok(())
}

#[test]
fn what_is_driven_is_a_wire(rt: HostRuntime) -> Result<(), Fail> {
    let rows: [(&str, &str); 12] = [
        ("assign r = n;", "NotAssignable 2:8"),
        ("assign i = n;", "NotAssignable 2:8"),
        ("assign n = 1;", "NotAssignable 2:8"),
        ("assign P = 1;", "NotAssignable 2:8"),
        ("assign g = 1;", "NotAssignable 2:8"),
        ("assign {a, r} = 0;", "NotAssignable 2:12"),
        ("and (r, n, a);", "NotAssignable 2:6"),
        ("buf (a, n, n);", "NotAssignable 2:9"),
        ("and (~a, n, n);", "NotAssignable 2:6"),
        ("leaf l (n, r);", "NotAssignable 2:12"),
        ("leaf l (.x(n), .z((a)));", "NotAssignable 2:19"),
        ("leaf l (.x(n), .z(1));", "NotAssignable 2:19"),
    ];
    assert_eq!(rt; wrong(rt.alloc(), HEAD, TAIL, &rows)?, None);
    Ok(())
}

// Either of the two may be named, since no rule says which of them is the second.
#[test]
fn two_signals_differ_in_their_printed_names(rt: HostRuntime) -> Result<(), Fail> {
    for (text, want) in [
        (
            "module m; wire \\l.x ; leaf l (); endmodule module leaf; wire x; endmodule",
            "TwiceDeclared l.x ",
        ),
        (
            "module m; if (1) wire w; if (1) wire w; endmodule",
            "TwiceDeclared w ",
        ),
        (
            "module m; wire w; if (1) wire w; endmodule",
            "TwiceDeclared w ",
        ),
    ] {
        let got = said(rt.alloc(), text, &[])?;
        assert!(rt;
            !is_wanted(got.as_str(), "")? && got.starts_with(want),
            "{text}: {got}"
        );
    }
    Ok(())
}
