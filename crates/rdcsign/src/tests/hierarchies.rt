//! Hierarchies: clocks and resets through ports, hierarchical names, and faults of elaboration.
use super::{CHECK, CONSTRAINTS, Case, SOURCE, expect, make_case};
use rdc_outside::Status;
use std::alloc::{AllocError, Global};
use std::test::Fail;

// A flop, and two of them one behind the other. Their clock and their reset come through ports.
const PARTS: &str = "module leaf(input clk, input rst_n, input d, output reg q);
  always @(posedge clk or negedge rst_n) if (!rst_n) q <= 1'b0; else q <= d;
endmodule
module pair(input c, input r, input d, output y);
  wire w;
  leaf one(.clk(c), .rst_n(r), .d(d), .q(w));
  leaf two(c, (r), w, y);
endmodule
";

// Two pairs in a row, the second one of its own clock and of this reset.
fn two_pairs(alloc: Global, reset: &str) -> Result<String, AllocError> {
    format!(in alloc;
        "{PARTS}module m(input ca, input cb, input ra, input rb, input d, output y);
  wire v;
  pair left(ca, ra, d, v);
  pair right(cb, {reset}, v, y);
endmodule
"
    )
}

#[test]
fn resets_are_known_below_instances(rt: HostRuntime) -> Result<(), Fail> {
    let source = two_pairs(rt.alloc(), "ra")?;
    expect(
        &rt,
        &make_case(&CHECK, CONSTRAINTS, &source),
        Status::Clean,
        "rdc report 1\ntop m\nsame 4 crossing 0\nverdict clean\n",
    )?;
    let source = two_pairs(rt.alloc(), "rb")?;
    expect(
        &rt,
        &make_case(&CHECK, CONSTRAINTS, &source),
        Status::Hazard,
        "rdc report 1\ntop m\nedge right.one.q crossing\nsame 3 crossing 1\nverdict crossing\n",
    )?;
    // a reset behind a gate is no port
    let source = two_pairs(rt.alloc(), "ra & rb")?;
    expect(
        &rt,
        &make_case(&CHECK, CONSTRAINTS, &source),
        Status::NotYet,
        "refused notyet m.v\n",
    )
}

#[test]
fn a_clock_may_go_out_again(rt: HostRuntime) -> Result<(), Fail> {
    let source = "module m(input ca, input ra, input d, output reg q, output co);
  wire c;
  assign c = (ca);
  assign co = c;
  always @(posedge c or negedge ra) if (!ra) q <= 1'b0; else q <= d;
endmodule
";
    expect(
        &rt,
        &make_case(&CHECK, "rdc 1\nclock ca\nreset ra low\n", source),
        Status::Clean,
        "rdc report 1\ntop m\nsame 1 crossing 0\nverdict clean\n",
    )
}

#[test]
fn a_generate_loop_repeats_instances(rt: HostRuntime) -> Result<(), Fail> {
    let source = format!(in rt.alloc();
        "{PARTS}module m(input ca, input ra, input rb, input d);
  parameter N = 2;
  genvar i;
  generate
    for (i = 0; i < N; i = i + 1) begin : g
      wire v;
      wire w;
      leaf u(ca, ra, d, v);
      leaf x(.clk(ca), .rst_n(rb), .d(v), .q(w));
    end
  endgenerate
endmodule
"
    )?;
    expect(
        &rt,
        &make_case(
            &CHECK,
            "rdc 1\nclock ca\nreset ra low\nreset rb low\n",
            &source,
        ),
        Status::Hazard,
        "rdc report 1\ntop m\nedge g[0].x.q crossing\nedge g[1].x.q crossing\nsame 2 crossing 2\nverdict crossing\n",
    )
}

#[test]
fn faults_of_elaboration_are_named(rt: HostRuntime) -> Result<(), Fail> {
    let rows = [
        ("", "refused source nomodule m\n"),
        ("module n; endmodule\n", "refused source nomodule m\n"),
        (
            "module m(input a);\n  sub u(a);\nendmodule\n",
            "refused source nomodule sub m.v:2:3\n",
        ),
        (
            "module m;\n  reg [1025:1] a;\nendmodule\n",
            "refused source widthlimit m.v:2:8\n",
        ),
        (
            "module m(output y);\n  wire w;\n  assign y = w;\nendmodule\n",
            "refused source undriven w m.v:3:14\n",
        ),
        (
            "module m(input a, output y);\n  assign y = a;\n  assign y = b;\nendmodule\n",
            "refused source undeclared b m.v:3:14\n",
        ),
        (
            "module m(output y);\n  wire [1:0] w;\n  assign y = w[2 / 0];\nendmodule\n",
            "refused source zerodivisor m.v:3:20\n",
        ),
    ];
    for (source, text) in rows {
        // the constraints are not looked at
        expect(&rt, &make_case(&CHECK, "", source), Status::Source, text)?;
    }
    expect(
        &rt,
        &make_case(&["check", "nosuch", "m.rdc", "m.v"], CONSTRAINTS, SOURCE),
        Status::Source,
        "refused source nomodule nosuch\n",
    )
}

#[test]
fn what_is_below_an_instance_is_named_by_the_first_file(rt: HostRuntime) -> Result<(), Fail> {
    let words = ["check", "t", "m.rdc", "t.v", "c.v"];
    let others = [
        (
            "t.v",
            "module t(input a, output y);\n  c u(a, y);\nendmodule\n",
        ),
        (
            "c.v",
            "module c(input a, output y);\n  wire [1:0] w;\n  assign w = a;\n  assign y = w[0];\nendmodule\n",
        ),
    ];
    let case = Case {
        words: &words,
        constraints: CONSTRAINTS,
        source: "",
        others: &others,
        failing_load: 0,
        failing_write: 0,
    };
    expect(&rt, &case, Status::NotYet, "refused notyet t.v\n")
}
