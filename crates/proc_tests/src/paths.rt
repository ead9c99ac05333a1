//! What each path assigns, and what is read before.

use crate::shown::wrong;
use std::test::Fail;

#[test]
fn each_bit_is_assigned_on_every_path(rt: HostRuntime) -> Result<(), Fail> {
    let rows: [(&str, &str); 10] = [
        ("always @* if (d) y = e;", "Latch y 2:1"),
        ("always @* if (d) y = e; else y = c;", " y"),
        ("always @* begin y = c; if (d) y = e; end", " y"),
        ("always @* if (1) y = e;", "Latch y 2:1"),
        ("always @* q[2:0] = v[2:0];", " q[0] q[1] q[2]"),
        (
            "always @* if (d) q = v; else q[2:0] = v[2:0];",
            "Latch q 2:1",
        ),
        ("always @* q[s] = c;", "Latch q 2:1"),
        (
            "always @* begin q = v; q[s] = c; end",
            " q[0] q[1] q[2] q[3]",
        ),
        ("always @* {y, q[1]} = v[1:0];", " q[1] y"),
        ("always @(posedge c) if (d) y <= e;", " y"),
    ];
    assert_eq!(rt; wrong(rt.alloc(), &rows)?, None);
    Ok(())
}

#[test]
fn no_variable_is_read_before(rt: HostRuntime) -> Result<(), Fail> {
    let rows: [(&str, &str); 6] = [
        ("always @* begin y = c & x; x = d; end", "Latch x 2:25"),
        ("always @* begin x = d; y = c & x; end", " x y"),
        (
            "always @* begin p[2:0] = v[2:0]; y = p[1]; p[3] = c; end",
            "Latch p 2:38",
        ),
        (
            "always @* begin q = v; q[x] = c; x = d; end",
            "Latch x 2:26",
        ),
        (
            "always @* begin if (x) y = c; else y = d; x = e; end",
            "Latch x 2:21",
        ),
        (
            "always @* begin if (d) x = c; else x = d; case (x) 1'b0: y = d; default: y = x; endcase end",
            " x y",
        ),
    ];
    assert_eq!(rt; wrong(rt.alloc(), &rows)?, None);
    Ok(())
}
