//! Bits that are driven twice, or read and not driven. An item stands on the second line.

use crate::shown::wrong;
use std::test::Fail;

const HEAD: &str =
    "module m (input n, c, output y); wire a; wire [3:0] b; reg r; reg [1:0] s; integer i;\n";

const SHORT_HEAD: &str = "module m (input n, c, output y); wire [1:0] b; reg r; reg [1:0] s;\n";

const TAIL: &str =
    "\nendmodule module leaf (input x, output z); assign z = x; endmodule module still (output z); endmodule module wild (input x); always @* x = 0; endmodule";

#[test]
fn a_bit_that_is_read_is_driven(rt: HostRuntime) -> Result<(), Fail> {
    let rows: [(&str, &str); 13] = [
        ("assign y = a;", "Undriven a 2:12"),
        (
            "assign b[2:0] = {n, n, n}; assign y = n & b[3];",
            "Undriven b[3] 2:43",
        ),
        (
            "assign b[2:0] = {n, n, n}; assign y = &b; assign a = b[3];",
            "Undriven b[3] 2:40",
        ),
        ("assign y = r ^ n;", "Undriven r 2:12"),
        ("and (y, n, a);", "Undriven a 2:12"),
        ("always @(posedge a) r <= n;", "Undriven a 2:18"),
        ("always @* r = n & a;", "Undriven a 2:19"),
        ("always @* if (a) r = n; else r = c;", "Undriven a 2:15"),
        ("leaf l (.x(a), .z(y));", "Undriven a 2:12"),
        ("still l (y);", "Undriven l.z 2:10"),
        (
            "assign y = i[0]; always @(posedge c) for (i = 0; i < 2; i = i + 1) s[i] <= n;",
            "Undriven i[0] 2:12",
        ),
        ("leaf l (.z(y));", "Undriven l.x 3:55"),
        ("leaf l (.x(), .z(y));", "Undriven l.x 3:55"),
    ];
    assert_eq!(rt; wrong(rt.alloc(), HEAD, TAIL, &rows)?, None);
    Ok(())
}

#[test]
fn a_bit_is_driven_once(rt: HostRuntime) -> Result<(), Fail> {
    let rows: [(&str, &str); 12] = [
        ("assign a = n; assign a = c;", "TwiceDriven a 2:22"),
        (
            "assign b = {n, n, n, n}, b[1] = c;",
            "TwiceDriven b[1] 2:26",
        ),
        ("wire w = n; assign w = c;", "TwiceDriven w 2:20"),
        ("leaf l (n, a), k (c, a);", "TwiceDriven a 2:22"),
        ("assign a = n; buf (a, c);", "TwiceDriven a 2:19"),
        ("buf (a, c); assign a = n;", "TwiceDriven a 2:20"),
        ("buf (a, y, c); assign y = n;", "TwiceDriven y 2:23"),
        (
            "always @* r = n; always @(posedge c) r <= n;",
            "TwiceDriven r 2:18",
        ),
        (
            "always @* s[0] = n; always @* s = {n, c};",
            "TwiceDriven s[0] 2:21",
        ),
        ("always @* i = n; always @* i = c;", "TwiceDriven i[0] 2:18"),
        (
            "assign b[3:2] = {n, c}; assign b[1:0] = {n, c}; assign b[2 +: 1] = n;",
            "TwiceDriven b[2] 2:56",
        ),
        ("wild l (n);", "TwiceDriven l.x 3:126"),
    ];
    assert_eq!(rt; wrong(rt.alloc(), HEAD, TAIL, &rows)?, None);
    Ok(())
}

#[test]
fn what_is_not_read_needs_no_driver(rt: HostRuntime) -> Result<(), Fail> {
    let rows: [(&str, &str); 5] = [
        ("", " b[0] b[1] c n r s[0] s[1] y"),
        (
            "assign y = b[1]; assign b[1] = n;",
            " b[0] b[1] c n r s[0] s[1] y",
        ),
        ("always @* n = 1;", " b[0] b[1] c n r s[0] s[1] y"),
        (
            "always @(a) r = n; wire a;",
            " a b[0] b[1] c n r s[0] s[1] y",
        ),
        ("still l ();", " b[0] b[1] c l.z n r s[0] s[1] y"),
    ];
    assert_eq!(rt; wrong(rt.alloc(), SHORT_HEAD, TAIL, &rows)?, None);
    Ok(())
}
