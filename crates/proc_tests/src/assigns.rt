//! What may be assigned, and how.

use crate::shown::wrong;
use std::test::Fail;

#[test]
fn each_kind_of_process_has_its_assignment(rt: HostRuntime) -> Result<(), Fail> {
    let rows: [(&str, &str); 6] = [
        ("always @* y <= c;", "WrongAssign y 2:11"),
        ("always @* w = c;", "WrongAssign w 2:11"),
        ("always @* begin i = 3; y = c; end", " y"),
        ("always @(posedge c) y = d;", "WrongAssign y 2:21"),
        ("always @(posedge c) i <= d;", "WrongAssign i 2:21"),
        ("always @(posedge c) {y, x} = {d, e};", "WrongAssign y 2:22"),
    ];
    assert_eq!(rt; wrong(rt.alloc(), &rows)?, None);
    Ok(())
}

#[test]
fn a_loop_variable_may_be_assigned_outside_its_loop(rt: HostRuntime) -> Result<(), Fail> {
    let rows: [(&str, &str); 3] = [
        (
            "always @(posedge c) begin for (i = 0; i < 2; i = i + 1) q[i] <= d; i = 3; end",
            " q[0] q[1]",
        ),
        (
            "always @(posedge c) begin j = 3; for (i = 0; i < 2; i = i + 1) q[i] <= d; end",
            "WrongAssign j 2:27",
        ),
        (
            "always @(posedge c) for (i = 0; 0; i = 0) i = 3;",
            "WrongAssign i 2:43",
        ),
    ];
    assert_eq!(rt; wrong(rt.alloc(), &rows)?, None);
    Ok(())
}
