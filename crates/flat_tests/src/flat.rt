//! A hierarchy of three levels: parameters widen a bus, two generate loops nest, and a generate `case` picks one of three.

use crate::shown::{bits_below, design_of, drivers_of, wrong};
use std::test::Fail;

const TEXT: &str = "module unit #(parameter KIND = 0) (input d, output q);\n\
    generate case (KIND)\n\
    0: begin : pass wire t; assign t = d; assign q = t; end\n\
    1, 2: begin : flip wire t; not (t, d); assign q = t; end\n\
    default: assign q = d;\n\
    endcase endgenerate\n\
    endmodule\n\
    module bus #(parameter W = 2, K = 0) (input [W-1:0] d, output [W-1:0] q, output spare);\n\
    genvar i, j;\n\
    generate for (i = 0; i < W; i = i + 1) begin : row\n\
    for (j = i; j < 2; j = j + 1) begin : col\n\
    wire x;\n\
    end\n\
    unit #(.KIND(K)) c (.d(d[i]), .q(q[i]));\n\
    end endgenerate\n\
    endmodule\n\
    module m (input [2:0] a, output [2:0] y, output z);\n\
    bus #(.K(1), .W(3)) u (.d(a), .q(y), .spare());\n\
    bus #(1, 5) v (a[0], z);\n\
    bus w (.d(a[1:0]));\n\
    endmodule";

#[test]
fn bits_have_their_names(rt: HostRuntime) -> Result<(), Fail> {
    let design = design_of(rt.alloc(), TEXT, "m")?;
    assert_eq!(rt; design.bits(), 47);
    for (prefix, want) in [
        ("a", " a[0] a[1] a[2]"),
        ("u.d", " u.d[0] u.d[1] u.d[2]"),
        ("u.q", " u.q[0] u.q[1] u.q[2]"),
        (
            "u.row[0]",
            " u.row[0].c.d u.row[0].c.flip.t u.row[0].c.q u.row[0].col[0].x u.row[0].col[1].x",
        ),
        (
            "u.row[1]",
            " u.row[1].c.d u.row[1].c.flip.t u.row[1].c.q u.row[1].col[1].x",
        ),
        ("u.row[2]", " u.row[2].c.d u.row[2].c.flip.t u.row[2].c.q"),
        ("u.s", " u.spare"),
        (
            "v",
            " v.d v.q v.row[0].c.d v.row[0].c.q v.row[0].col[0].x v.row[0].col[1].x v.spare",
        ),
        ("w.d", " w.d[0] w.d[1]"),
        ("w.q", " w.q[0] w.q[1]"),
        (
            "w.row",
            " w.row[0].c.d w.row[0].c.pass.t w.row[0].c.q w.row[0].col[0].x w.row[0].col[1].x w.row[1].c.d w.row[1].c.pass.t w.row[1].c.q w.row[1].col[1].x",
        ),
        ("w.s", " w.spare"),
        ("y", " y[0] y[1] y[2]"),
        ("z", " z"),
    ] {
        let got = bits_below(rt.alloc(), &design, prefix.as_bytes())?;
        assert!(rt; got.as_str() == want, "{prefix}: {got}");
    }
    Ok(())
}

// Of the bindings two of each of the six units, and five of the buses; of the units with `pass` two assignments, and of
// others one.
#[test]
fn bits_have_their_drivers(rt: HostRuntime) -> Result<(), Fail> {
    let design = design_of(rt.alloc(), TEXT, "m")?;
    assert_eq!(rt; design.parts().drivers.as_slice().len(), 25);
    assert_eq!(rt; design.parts().gates.as_slice().len(), 3);
    assert_eq!(rt; design.parts().processes.as_slice().len(), 0);
    for (target, want) in [
        ("y", " u.q"),
        ("z", " v.q"),
        ("u.d", " a"),
        ("v.d", " a[0]"),
        ("w.d", " a[1:0]"),
        ("u.row[2].c.d", " u.d[2]"),
        ("u.q[2]", " u.row[2].c.q"),
        ("u.row[2].c.q", " u.row[2].c.flip.t"),
        ("v.row[0].c.q", " v.row[0].c.d"),
        ("w.row[1].c.pass.t", " w.row[1].c.d"),
        ("u.row[2].c.flip.t", ""),
        ("u.spare", ""),
    ] {
        let got = drivers_of(rt.alloc(), &design, target)?;
        assert!(rt; got.as_str() == want, "{target}: {got}");
    }
    Ok(())
}

const HEAD: &str = "module m (input n); parameter P = 1; genvar i, j;\n";

const TAIL: &str =
    "\nendmodule module leaf #(parameter W = 1, [1:0] C = 0) (); localparam L = W + 1; wire [L:C] x; endmodule";

#[test]
fn what_is_elaborated_has_names(rt: HostRuntime) -> Result<(), Fail> {
    let rows: [(&str, &str); 14] = [
        (
            "for (i = 1; i >= -1; i = i - 1) begin : g wire x; end",
            " g[-1].x g[0].x g[1].x n",
        ),
        (
            "for (i = 0; i < 2; i = i + 1) begin : g for (i = 0; i < 2; i = i + 1) begin : h wire x; end end",
            " g[0].h[0].x g[0].h[1].x g[1].h[0].x g[1].h[1].x n",
        ),
        (
            "for (i = 0; i < 2; i = i + 1) begin : g wire [i:0] x; end",
            " g[0].x g[1].x[0] g[1].x[1] n",
        ),
        (
            "for (i = 0; i < 1; i = i + 1) begin : g localparam Q = i + 2; wire [Q:Q] x; end",
            " g[0].x[2] n",
        ),
        ("for (i = P; i < 1; i = i + 1) begin : g wire x; end", " n"),
        (
            "if (P) begin : g wire x; end else begin : g wire z; end",
            " g.x n",
        ),
        (
            "if (!P) nothing u (); else if (P == 1) begin wire x; end",
            " n x",
        ),
        ("case (P) default: wire x; 0, 1: wire z; endcase", " n z"),
        (
            "case (P + 1) 0, 1: wire z; default begin : d wire x; end 2 + 1: ; endcase",
            " d.x n",
        ),
        ("case (P + 1) 0, 1: wire z; endcase", " n"),
        (
            "generate if (1) begin : \\a+b wire \\c.d ; end endgenerate",
            " a+b.c.d n",
        ),
        ("leaf u ();", " n u.x[0] u.x[1] u.x[2]"),
        ("leaf #(P - 1, 3) u ();", " n u.x[1] u.x[2] u.x[3]"),
        ("leaf #(.C(7 - 1), .W()) u ();", " n u.x[2]"),
    ];
    assert_eq!(rt; wrong(rt.alloc(), HEAD, TAIL, &rows)?, None);
    Ok(())
}
