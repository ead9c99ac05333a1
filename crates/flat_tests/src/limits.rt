//! Limits: how deep instances nest, how often generate loops turn, and how heavy a design may be.

use crate::reading::is_wanted;
use crate::shown::flat;
use std::alloc::{AllocError, Global};
use std::test::Fail;

// How many bits a design has, or why there is none.
fn counted(alloc: Global, text: &str) -> Result<String, Fail> {
    match flat(alloc, text, "m", &[])? {
        Ok(design) => {
            let bits = design.bits();
            Ok(format!(in alloc; "{bits}")?)
        }
        Err(fault) => Ok(fault),
    }
}

// The first row whose text isn't answered so, with what came instead.
fn wrong(
    alloc: Global,
    head: &str,
    tail: &str,
    rows: &[(&str, &str)],
) -> Result<Option<String>, Fail> {
    for (row, want) in rows {
        let text = format!(in alloc; "{head}{row}{tail}")?;
        let got = counted(alloc, text.as_str())?;
        if !is_wanted(got.as_str(), *want)? {
            return Ok(Some(format!(in alloc; "{row}: {want} / {got}")?));
        }
    }
    Ok(None)
}

// The top `m`, and below it instances that nest so deep, each module on a line of its own.
fn chain(alloc: Global, depth: u32) -> Result<String, AllocError> {
    let mut text = String::from_str(alloc, "module m; m1 u (); endmodule\n")?;
    for k in 1..depth {
        let next = k.saturating_add(1);
        let line = format!(in alloc; "module m{k}; m{next} u (); endmodule\n")?;
        text.push_str(line.as_str())?;
    }
    let last = format!(in alloc; "module m{depth}; wire w; endmodule\n")?;
    text.push_str(last.as_str())?;
    Ok(text)
}

#[test]
fn instances_nest_255_deep(rt: HostRuntime) -> Result<(), Fail> {
    for (depth, want) in [(1, "1"), (255, "1"), (256, "HierLimit 256:19")] {
        let text = chain(rt.alloc(), depth)?;
        let got = counted(rt.alloc(), text.as_str())?;
        assert!(rt; is_wanted(got.as_str(), want)?, "{depth}: {got}");
    }
    Ok(())
}

const LOOPS: &str = "module m; genvar i; wire w;\n";

const END: &str = "\nendmodule";

#[test]
fn generate_loops_turn_less_than_65536_times(rt: HostRuntime) -> Result<(), Fail> {
    let rows: [(&str, &str); 2] = [
        ("for (i = 0; i < 65535; i = i + 1) begin : g end", "1"),
        (
            "for (i = 0; i < 65536; i = i + 1) begin : g end",
            "GenerateLimit 2:1",
        ),
    ];
    assert_eq!(rt; wrong(rt.alloc(), LOOPS, END, &rows)?, None);
    Ok(())
}

// 1,083 bits, and a product of 361 bits with its operands: 1,083 + 8 * 361 * 361 + 2 * 361 = 1,044,373. What is left of
// 1,048,575 are 4,202 bits or instances.
const PRODUCT: &str =
    "module leaf; endmodule module wide; wire [1023:0] w; endmodule\nmodule m (input [360:0] a, b, output [360:0] y);";

#[test]
fn a_weight_is_less_than_1048576(rt: HostRuntime) -> Result<(), Fail> {
    let rows: [(&str, &str); 5] = [
        (
            "wire [1023:0] p, q, r, s; wire [105:0] t; assign y = a * b;",
            "5285",
        ),
        (
            "wire [1023:0] p, q, r, s; wire [106:0] t; assign y = a * b;",
            "Heavy 2:98",
        ),
        (
            "wire [1023:0] p, q, r, s; wire [104:0] t; leaf u (); assign y = a * b;",
            "5284",
        ),
        (
            "wire [1023:0] p, q, r, s; wire [105:0] t; leaf u (); assign y = a * b;",
            "Heavy 2:109",
        ),
        (
            "genvar i; for (i = 0; i < 1024; i = i + 1) begin : g wide u (); end",
            "Heavy 2:107",
        ),
    ];
    assert_eq!(rt; wrong(rt.alloc(), PRODUCT, END, &rows)?, None);
    Ok(())
}
