//! Instances: of what, with which ports and parameters, and not within themselves. An item stands on the second line.

use crate::reading::is_wanted;
use crate::shown::{flat, wrong};
use std::alloc::Global;
use std::test::Fail;

const HEAD: &str = "module m (input n, output y); wire a; wire [1:0] b; reg r;\n";

const TAIL: &str =
    "\nendmodule module leaf #(parameter W = 1) (input x, output z); parameter E = 2; assign z = x; endmodule module self; self s (); endmodule module ping; pong p (); endmodule module pong; ping q (); endmodule module twin; endmodule module twin; endmodule module bare (p, q); input p; endmodule";

#[test]
fn an_instance_is_of_one_module(rt: HostRuntime) -> Result<(), Fail> {
    let rows: [(&str, &str); 3] = [
        ("nothing l ();", "NoModule nothing 2:1"),
        ("twin t ();", "TwoModules twin 2:1"),
        ("if (0) nothing l ();", " a b[0] b[1] n r y"),
    ];
    assert_eq!(rt; wrong(rt.alloc(), HEAD, TAIL, &rows)?, None);
    Ok(())
}

#[test]
fn a_connection_has_a_port(rt: HostRuntime) -> Result<(), Fail> {
    let rows: [(&str, &str); 10] = [
        ("leaf l (.w(n));", "NoPort w 2:10"),
        ("leaf l (.x(n), .W(n));", "NoPort W 2:17"),
        ("leaf #(.V(3)) l (n, y);", "NoPort V 2:9"),
        ("leaf #(.x(3)) l (n, y);", "NoPort x 2:9"),
        ("leaf l (n, y, a);", "PortCount 2:6"),
        ("leaf #(1, 2, 3) l (n, y);", "PortCount 2:1"),
        ("leaf l (.x(n), .z(y), .x(n));", "TwiceDeclared x 2:24"),
        ("leaf #(.W(1), .W(2)) l (n, y);", "TwiceDeclared W 2:16"),
        ("and (y);", "PortCount 2:5"),
        ("not u (y);", "PortCount 2:5"),
    ];
    assert_eq!(rt; wrong(rt.alloc(), HEAD, TAIL, &rows)?, None);
    Ok(())
}

#[test]
fn no_module_stands_within_itself(rt: HostRuntime) -> Result<(), Fail> {
    let rows: [(&str, &str); 5] = [
        ("self s ();", "Recursion self 3:122"),
        ("ping u ();", "Recursion ping 3:190"),
        ("m u ();", "Recursion m 2:3"),
        ("if (1) begin : g m u (n, y); end", "Recursion m 2:20"),
        ("bare u (n, y);", "NoPort q 3:268"),
    ];
    assert_eq!(rt; wrong(rt.alloc(), HEAD, TAIL, &rows)?, None);
    Ok(())
}

// What is said of a top.
fn top_said(alloc: Global, name: &str) -> Result<String, Fail> {
    let text = "module a; endmodule\nmodule b; endmodule\nmodule b; endmodule";
    match flat(alloc, text, name, &[])? {
        Ok(_) => Ok(String::from_str(alloc, "a design")?),
        Err(fault) => Ok(fault),
    }
}

#[test]
fn the_top_is_one_module(rt: HostRuntime) -> Result<(), Fail> {
    for (name, want) in [
        ("a", "a design"),
        ("b", "TwoModules b 3:8"),
        ("c", "NoModule c"),
        ("", "NoModule "),
    ] {
        let got = top_said(rt.alloc(), name)?;
        assert!(rt; is_wanted(got.as_str(), want)?, "{name}: {got}");
    }
    Ok(())
}
