//! Ranges, selects and constants. An item stands on the second line.

use crate::shown::wrong;
use std::test::Fail;

const HEAD: &str =
    "module m (input n, output y); parameter P = 1; wire [3:0] b; wire [0:3] u; wire [7:4] h; reg r; reg [3:0] s;\n";

const CONSTANTS_HEAD: &str =
    "module m (input n, output y); parameter P = 1; reg r; wire [199:0] v; integer i;\n";

const TAIL: &str = "\nendmodule";

#[test]
fn a_select_lies_in_the_range(rt: HostRuntime) -> Result<(), Fail> {
    let rows: [(&str, &str); 15] = [
        (
            "assign b = 0, u = 0, h = 0; assign y = b[4];",
            "BadRange 2:40",
        ),
        (
            "assign b = 0, u = 0, h = 0; assign y = h[3];",
            "BadRange 2:40",
        ),
        (
            "assign b = 0, u = 0, h = 0; assign y = b[-1];",
            "BadRange 2:40",
        ),
        (
            "assign b = 0, u = 0, h = 0; assign y = n[1];",
            "BadRange 2:40",
        ),
        (
            "assign b = 0, u = 0, h = 0; assign y = b[0:1];",
            "BadRange 2:40",
        ),
        (
            "assign b = 0, u = 0, h = 0; assign y = u[2:1];",
            "BadRange 2:40",
        ),
        (
            "assign b = 0, u = 0, h = 0; assign y = b[4:3];",
            "BadRange 2:40",
        ),
        (
            "assign b = 0, u = 0, h = 0; assign y = b[2 +: 3];",
            "BadRange 2:40",
        ),
        (
            "assign b = 0, u = 0, h = 0; assign y = b[1 -: 3];",
            "BadRange 2:40",
        ),
        (
            "assign b = 0, u = 0, h = 0; assign y = u[2 +: 3];",
            "BadRange 2:40",
        ),
        (
            "assign b = 0, u = 0, h = 0; assign y = b[n +: 0];",
            "BadRange 2:40",
        ),
        ("assign b[4] = n;", "BadRange 2:8"),
        ("assign {y, h[3:2]} = 0;", "BadRange 2:12"),
        ("always @* s[4] = n;", "BadRange 2:11"),
        ("always @(posedge n[1]) r <= n;", "BadRange 2:18"),
    ];
    assert_eq!(rt; wrong(rt.alloc(), HEAD, TAIL, &rows)?, None);
    Ok(())
}

#[test]
fn a_select_may_reach_both_ends(rt: HostRuntime) -> Result<(), Fail> {
    let rows: [(&str, &str); 6] = [
        (
            "assign b = 0, u = 0, h = 0; assign y = b[3] & h[4] & n[0];",
            " b[0] b[1] b[2] b[3] h[4] h[5] h[6] h[7] n r s[0] s[1] s[2] s[3] u[0] u[1] u[2] u[3] y",
        ),
        (
            "assign b = 0, u = 0, h = 0; assign y = b[3:3] ^ b[2 +: 2] ^ b[1 -: 2] ^ b[n +: 4] ^ b[n];",
            " b[0] b[1] b[2] b[3] h[4] h[5] h[6] h[7] n r s[0] s[1] s[2] s[3] u[0] u[1] u[2] u[3] y",
        ),
        (
            "assign b = 0, u = 0, h = 0; assign y = u[0:1] ^ u[2 +: 2] ^ u[3 -: 4];",
            " b[0] b[1] b[2] b[3] h[4] h[5] h[6] h[7] n r s[0] s[1] s[2] s[3] u[0] u[1] u[2] u[3] y",
        ),
        (
            "wire [65535:65534] v;",
            " b[0] b[1] b[2] b[3] h[4] h[5] h[6] h[7] n r s[0] s[1] s[2] s[3] u[0] u[1] u[2] u[3] v[65534] v[65535] y",
        ),
        (
            "wire [0:0] v;",
            " b[0] b[1] b[2] b[3] h[4] h[5] h[6] h[7] n r s[0] s[1] s[2] s[3] u[0] u[1] u[2] u[3] v y",
        ),
        (
            "wire [1:1] v;",
            " b[0] b[1] b[2] b[3] h[4] h[5] h[6] h[7] n r s[0] s[1] s[2] s[3] u[0] u[1] u[2] u[3] v[1] y",
        ),
    ];
    assert_eq!(rt; wrong(rt.alloc(), HEAD, TAIL, &rows)?, None);
    Ok(())
}

#[test]
fn a_range_and_a_constant_have_values(rt: HostRuntime) -> Result<(), Fail> {
    let rows: [(&str, &str); 14] = [
        ("wire [65536:65530] v;", "BadRange 2:7"),
        ("wire [7:0 - 1] v;", "BadRange 2:9"),
        ("wire [70000:70000] v;", "BadRange 2:7"),
        ("reg [1025:1] v;", "WidthLimit 2:6"),
        ("wire [0:1024] v;", "WidthLimit 2:7"),
        ("wire [P * 2 + n:0] v;", "NotConstant 2:15"),
        ("parameter Q = b;", "NotConstant 2:15"),
        ("parameter Q = R; parameter R = 1;", "NotConstant 2:15"),
        ("parameter [128:0] Q = 1;", "TooWide 2:12"),
        ("parameter Q = {3{64'd1}};", "TooWide 2:15"),
        ("parameter Q = P / (P - 1);", "ZeroDivisor 2:19"),
        ("parameter Q = P % 0;", "ZeroDivisor 2:19"),
        ("assign b[n] = n;", "NotConstant 2:10"),
        ("if (n) wire v;", "NotConstant 2:5"),
    ];
    assert_eq!(rt; wrong(rt.alloc(), HEAD, TAIL, &rows)?, None);
    Ok(())
}

#[test]
fn a_value_is_asked_of_constants_alone(rt: HostRuntime) -> Result<(), Fail> {
    let rows: [(&str, &str); 11] = [
        ("assign y = n / 2;", "NotConstant 2:12"),
        ("assign y = 2 ** n;", "NotConstant 2:17"),
        ("assign y = {n{n}};", "NotConstant 2:13"),
        ("assign y = 7 % (P - 1);", "ZeroDivisor 2:16"),
        ("assign v = 4 / 2;", "TooWide 2:12"),
        ("assign v[n +: 2] = 0;", "NotConstant 2:10"),
        ("assign v[7 +: n] = 0;", "NotConstant 2:15"),
        ("always @* r = v[7:n];", "NotConstant 2:19"),
        (
            "always @* for (i = 0; i < n; i = i + 1) r = 0;",
            "NotConstant 2:27",
        ),
        (
            "always @* for (i = n; i < 2; i = i + 1) r = 0;",
            "NotConstant 2:20",
        ),
        (
            "always @* for (i = 0; i < 2; i = i + 1) i = 0;",
            "NotConstant 2:23",
        ),
    ];
    assert_eq!(rt; wrong(rt.alloc(), CONSTANTS_HEAD, TAIL, &rows)?, None);
    Ok(())
}
