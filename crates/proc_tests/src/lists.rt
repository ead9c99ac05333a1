//! What lists of events lack.

use crate::shown::wrong;
use std::test::Fail;

#[test]
fn a_list_has_each_bit_that_is_read(rt: HostRuntime) -> Result<(), Fail> {
    let rows: [(&str, &str); 8] = [
        ("always @(d) y = d & e;", "IncompleteList e 2:21"),
        ("always @(d or e) y = d & e;", " y"),
        ("always @* y = d & e;", " y"),
        ("always @(v[1]) y = v[1];", " y"),
        ("always @(v[1]) y = v[2];", "IncompleteList v 2:20"),
        ("always @(v) y = v[1];", " y"),
        ("always @(v) y = v[s];", "IncompleteList s 2:19"),
        ("always @(d) begin x = d; y = x; end", " x y"),
    ];
    assert_eq!(rt; wrong(rt.alloc(), &rows)?, None);
    Ok(())
}
