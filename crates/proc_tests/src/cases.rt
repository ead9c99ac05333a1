//! Which `case` statements have a path past them.

use crate::shown::wrong;
use std::test::Fail;

#[test]
fn a_full_case_has_no_path_past_it(rt: HostRuntime) -> Result<(), Fail> {
    let rows: [(&str, &str); 9] = [
        (
            "always @* case (s) 0: y = c; 1: y = d; 2: y = e; 3: y = c; endcase",
            " y",
        ),
        (
            "always @* case (s) 0: y = c; 1: y = d; 3: y = c; endcase",
            "Latch y 2:1",
        ),
        (
            "always @* case (s) 2'b00, 2'b01: y = c; default: y = d; endcase",
            " y",
        ),
        (
            "always @* case (s) 0: y = c; 1: y = d; 2: y = e; {1'b1, d}: y = c; endcase",
            "Latch y 2:1",
        ),
        (
            "always @* case (t) 0: y = c; 1: y = d; -1: y = e; -2: y = c; endcase",
            " y",
        ),
        (
            "always @* case (t) 0: y = c; 1: y = d; 2: y = e; 3: y = c; endcase",
            "Latch y 2:1",
        ),
        (
            "always @* case (~d) 1'b0: y = c; 1'b1: y = e; endcase",
            " y",
        ),
        (
            "always @* case (~d) 0: y = c; 1: y = e; endcase",
            "Latch y 2:1",
        ),
        (
            "always @* case (d) 0: if (e) y = c; 1: y = e; endcase",
            "Latch y 2:1",
        ),
    ];
    assert_eq!(rt; wrong(rt.alloc(), &rows)?, None);
    Ok(())
}

#[test]
fn positions_of_z_digits_match_all(rt: HostRuntime) -> Result<(), Fail> {
    let rows: [(&str, &str); 4] = [
        (
            "always @* casez (v) 4'b1zzz: y = c; 4'b0zzz: y = d; endcase",
            " y",
        ),
        (
            "always @* casez (v) 4'b1zzz: y = c; 4'b01zz: y = d; endcase",
            "Latch y 2:1",
        ),
        (
            "always @* casez (v) {1'b1, {3{1'bz}}}: y = c; {2'b0z, 2'bzz}: y = d; endcase",
            " y",
        ),
        ("always @* casez (v) 4'bzzzz: y = c; endcase", " y"),
    ];
    assert_eq!(rt; wrong(rt.alloc(), &rows)?, None);
    Ok(())
}
