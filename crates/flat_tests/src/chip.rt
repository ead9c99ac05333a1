//! A chip of synchronised resets, pointers and lanes: what its flat design holds.

use crate::shown::{bits_below, design_of, drivers_of};
use std::test::Fail;

const TEXT: &str = "module rsync(clk, arst_n, rst_n);\n\
    input clk, arst_n;\n\
    output rst_n;\n\
    reg q1, q2;\n\
    always @(posedge clk or negedge arst_n)\n\
    if (!arst_n) begin q1 <= 1'b0; q2 <= 1'b0; end\n\
    else begin q1 <= 1'b1; q2 <= q1; end\n\
    assign rst_n = q2;\n\
    endmodule\n\
    module ptr #(parameter W = 2) (input clk, input rst_n, input inc, output reg [W-1:0] p);\n\
    always @(posedge clk or negedge rst_n)\n\
    if (!rst_n) p <= {W{1'b0}};\n\
    else if (inc) p <= p + 1'b1;\n\
    endmodule\n\
    module lane(input clk, input rst_n, input [1:0] sel, input d, input up, output reg y);\n\
    reg nx;\n\
    always @* casez (sel)\n\
    2'b1?: nx = d;\n\
    2'b01: nx = up;\n\
    default: nx = y;\n\
    endcase\n\
    always @(posedge clk or negedge rst_n)\n\
    if (!rst_n) y <= 1'b0; else y <= nx;\n\
    endmodule\n\
    module chip(input ca, cb, cc, por_a_n, por_b_n, por_c_n, hold, push, pop,\n\
    input [1:0] sel, input [7:0] d, output [7:0] y, output reg st, bz);\n\
    wire ra_n, rb_n, rc_n;\n\
    wire [2:0] wp, rp;\n\
    rsync sa(.clk(ca), .arst_n(por_a_n), .rst_n(ra_n));\n\
    rsync sb(cb, por_b_n, rb_n), sc(cc, por_c_n, rc_n);\n\
    ptr #(.W(3)) wr(.clk(ca), .rst_n(ra_n), .inc(push), .p(wp));\n\
    ptr #(3) rd(.clk(cb), .rst_n(rb_n), .inc(pop & (wp != rp)), .p(rp));\n\
    genvar i;\n\
    generate for (i = 0; i < 8; i = i + 1) begin : g\n\
    lane l(.clk(cb), .rst_n(rb_n), .sel(sel), .d(d[i]), .up(wp[0]), .y(y[i]));\n\
    end endgenerate\n\
    always @(posedge cc or negedge rc_n)\n\
    if (!rc_n) st <= 1'b0; else st <= wp[2] ^ rp[2];\n\
    always @(posedge ca or negedge ra_n)\n\
    if (!ra_n) bz <= 1'b0; else bz <= rp[1] & ~hold;\n\
    endmodule";

// Its own 38 bits, and 5 of each of three synchronisers, 6 of each of two pointers, and 8 of each of eight lanes.
#[test]
fn the_chip_has_its_bits(rt: HostRuntime) -> Result<(), Fail> {
    let design = design_of(rt.alloc(), TEXT, "chip")?;
    assert_eq!(rt; design.bits(), 129);
    for (prefix, want) in [
        ("wr.", " wr.clk wr.inc wr.p[0] wr.p[1] wr.p[2] wr.rst_n"),
        (
            "g[3].l.",
            " g[3].l.clk g[3].l.d g[3].l.nx g[3].l.rst_n g[3].l.sel[0] g[3].l.sel[1] g[3].l.up g[3].l.y",
        ),
        ("sb.", " sb.arst_n sb.clk sb.q1 sb.q2 sb.rst_n"),
    ] {
        let got = bits_below(rt.alloc(), &design, prefix.as_bytes())?;
        assert!(rt; got.as_str() == want, "{prefix}: {got}");
    }
    Ok(())
}

// Three assignments, and bindings: three of each synchroniser, four of each pointer, six of each lane. A process of each
// synchroniser and each pointer, two of each lane, and two of its own.
#[test]
fn the_chip_has_its_drivers(rt: HostRuntime) -> Result<(), Fail> {
    let design = design_of(rt.alloc(), TEXT, "chip")?;
    assert_eq!(rt; design.parts().drivers.as_slice().len(), 68);
    assert_eq!(rt; design.parts().processes.as_slice().len(), 23);
    assert_eq!(rt; design.parts().gates.as_slice().len(), 0);
    for (target, want) in [
        ("y[3]", " g[3].l.y"),
        ("g[3].l.up", " wp[0]"),
        ("wp", " wr.p"),
        ("sb.arst_n", " por_b_n"),
        ("rc_n", " sc.rst_n"),
        ("sc.rst_n", " sc.q2"),
    ] {
        let got = drivers_of(rt.alloc(), &design, target)?;
        assert!(rt; got.as_str() == want, "{target}: {got}");
    }
    Ok(())
}
