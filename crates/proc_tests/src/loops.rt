//! Loops.

use crate::shown::wrong;
use std::test::Fail;

#[test]
fn an_index_is_fixed_in_its_turn(rt: HostRuntime) -> Result<(), Fail> {
    let rows: [(&str, &str); 4] = [
        (
            "always @* for (i = 0; i < 4; i = i + 1) q[i] = v[3 - i];",
            " q[0] q[1] q[2] q[3]",
        ),
        ("always @* for (i = 3; i < 6; i = i + 1) q[i] = c;", " q[3]"),
        (
            "always @* begin y = i[0]; for (i = 0; i < 1; i = i + 1) q[i] = c; end",
            "Latch i 2:21",
        ),
        (
            "always @* begin for (i = 0; i < 1; i = i + 1) q[i] = c; y = i[0]; end",
            " q[0] y",
        ),
    ];
    assert_eq!(rt; wrong(rt.alloc(), &rows)?, None);
    Ok(())
}

#[test]
fn turns_are_limited(rt: HostRuntime) -> Result<(), Fail> {
    let rows: [(&str, &str); 2] = [
        (
            "always @* begin y = c; for (i = 0; i < 65535; i = i + 1) ; end",
            " y",
        ),
        (
            "always @* begin y = c; for (i = 0; i < 65536; i = i + 1) ; end",
            "LoopLimit 2:1",
        ),
    ];
    assert_eq!(rt; wrong(rt.alloc(), &rows)?, None);
    Ok(())
}
