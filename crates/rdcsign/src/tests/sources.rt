//! Sources: several files, macros and includes, comments and attributes, and their faults.
use super::{CHECK, CLEAN, CONSTRAINTS, CROSSING, Case, SOURCE, expect, make_case};
use rdc_outside::Status;
use std::alloc::{AllocError, Global};
use std::test::Fail;

// One module over three files: `top.v` and `end.v` are given, `mid.vh` is included by the first.
const PARTS: [(&str, &str); 3] = [
    (
        "top.v",
        "module m(input ca, input cb, input ra, input rb, input d, output reg p, output reg q);
  reg a;
  always @(posedge ca or negedge ra) if (!ra) p <= 1'b0; else p <= d;
`include \"mid.vh\"
",
    ),
    (
        "mid.vh",
        "  always @(posedge ca or negedge ra) if (!ra) a <= 1'b0; else a <= p;\n",
    ),
    (
        "end.v",
        "  always @(posedge cb or negedge rb) if (!rb) q <= 1'b0; else q <= a;\nendmodule\n",
    ),
];

const BY_PARTS: [&str; 5] = ["check", "m", "m.rdc", "top.v", "end.v"];

// A call on `p.v` alone, which may include others.
const FAULTY: [&str; 4] = ["check", "m", "m.rdc", "p.v"];

fn over<'a>(words: &'a [&'a str], others: &'a [(&'a str, &'a str)]) -> Case<'a> {
    Case {
        words,
        constraints: CONSTRAINTS,
        source: SOURCE,
        others,
        failing_load: 0,
        failing_write: 0,
    }
}

#[test]
fn a_module_may_stand_in_several_files(rt: HostRuntime) -> Result<(), Fail> {
    expect(
        &rt,
        &over(&BY_PARTS, &PARTS),
        Status::Hazard,
        "rdc report 1\ntop m\nedge q crossing\nsame 2 crossing 1\nverdict crossing\n",
    )
}

#[test]
fn each_load_of_several_fails_in_turn(rt: HostRuntime) -> Result<(), Fail> {
    let mut case = over(&BY_PARTS, &PARTS);
    for text in [
        "refused read m.rdc\n",
        "refused read top.v\n",
        "refused read mid.vh\n",
        "refused read end.v\n",
    ] {
        case.failing_load = case.failing_load.saturating_add(1);
        expect(&rt, &case, Status::Read, text)?;
    }
    Ok(())
}

#[test]
fn a_missing_file_is_named(rt: HostRuntime) -> Result<(), Fail> {
    let given = ["check", "m", "m.rdc", "top.v", "none.v", "end.v"];
    expect(
        &rt,
        &over(&given, &PARTS),
        Status::Absent,
        "refused absent none.v\n",
    )?;
    // one that is included, and one before a fault of the source
    let lone = [PARTS[0]];
    expect(
        &rt,
        &over(&["check", "m", "m.rdc", "top.v"], &lone),
        Status::Absent,
        "refused absent mid.vh\n",
    )?;
    let faulty = [("p.v", "`endif\n")];
    expect(
        &rt,
        &over(&["check", "m", "none.rdc", "p.v"], &faulty),
        Status::Absent,
        "refused absent none.rdc\n",
    )
}

#[test]
fn what_is_expanded_is_judged(rt: HostRuntime) -> Result<(), Fail> {
    let head = "module m(input ca, input cb, input ra, input rb, input d, output reg q);\nreg a;\n";
    let flop =
        "`define FLOP(q, c, r, d) always @(posedge c or negedge r) if (!r) q <= 1'b0; else q <= d;\n";
    let rows = [
        ("`FLOP(a, ca, ra, d)\n`FLOP(q, cb, rb, a)\n", false),
        ("`FLOP(a, ca, ra, d)\n`FLOP(q, cb, ra, a)\n", true),
        (
            "`define RB rb\n`FLOP(a, ca, ra, d) `FLOP(q, cb, `RB, a)\n",
            false,
        ),
        (
            "`FLOP(a, ca, ra, d)\n`ifdef SAFE\n`FLOP(q, cb, rb, a)\n`else\n`FLOP(q, cb, ra, a)\n`endif\n",
            true,
        ),
    ];
    for (body, clean) in rows {
        let source = format!(in rt.alloc(); "{flop}{head}{body}endmodule\n")?;
        let others = [("p.v", source.as_str())];
        let (status, text) = if clean {
            (Status::Clean, CLEAN)
        } else {
            (Status::Hazard, CROSSING)
        };
        expect(&rt, &over(&FAULTY, &others), status, text)?;
    }
    Ok(())
}

#[test]
fn comments_and_attributes_stand_anywhere(rt: HostRuntime) -> Result<(), Fail> {
    let source = "(* top *) module /* a */ m( // b \u{e9}
input ca, (* x = 1 *) input cb, input ra /**/, input rb, input d, output reg q);
  (* keep = \"yes\", full *) reg a; /* over
  two lines */ always @(posedge ca or (* y *) negedge ra) if (!ra) a <= /* 1'b1 */ 1'b0; else a <= d;
  always @(posedge cb or negedge rb) if (!rb) q <= 1'b0; else q <= a;
endmodule // end
(* last *)";
    expect(
        &rt,
        &make_case(&CHECK, CONSTRAINTS, source),
        Status::Hazard,
        CROSSING,
    )
}

#[test]
fn a_faulty_source_is_refused_at_its_place(rt: HostRuntime) -> Result<(), Fail> {
    let rows = [
        (
            "`define A `B\n`define B `A\n`A\n",
            "refused source macroloop A p.v:3:1\n",
        ),
        (
            "module m;\n`nothing\n",
            "refused source unknowndirective p.v:2:1\n",
        ),
        ("\n  `endif\n", "refused source unbalanced p.v:2:3\n"),
        ("`ifdef A\n", "refused source unbalanced p.v:1:1\n"),
        ("`define\n", "refused source badmacrouse p.v:1:1\n"),
        ("a \u{e9}\n", "refused source badbyte p.v:1:3\n"),
        (
            "module m;\nassign x = 129'h0;\n",
            "refused source badnumber p.v:2:12\n",
        ),
        ("\n\n /* open\n", "refused source opencomment p.v:3:2\n"),
        (
            "(* a = \"open\n *)\n",
            "refused source openstring p.v:1:8\n",
        ),
        // in a replacement: the place of the use
        (
            "`define N 129'h0\n\nx `N\n",
            "refused source badnumber p.v:3:3\n",
        ),
        // in the second of two files that are included
        (
            "`include \"one.vh\"\n`include \"two.vh\"\n",
            "refused source badnumber two.vh:2:4\n",
        ),
        // expansion comes before lexing
        ("129'h0\n`else\n", "refused source unbalanced p.v:2:1\n"),
    ];
    for (source, text) in rows {
        let others = [
            ("p.v", source),
            ("one.vh", "x\n\n"),
            ("two.vh", "y\n= (2'b2)\n"),
        ];
        expect(&rt, &over(&FAULTY, &others), Status::Source, text)?;
    }
    // a faulty source comes before faulty constraints, and a sink that fails leaves the status
    let case = Case {
        words: &FAULTY,
        constraints: "rdc 2\n",
        source: SOURCE,
        others: &[("p.v", "`endif\n")],
        failing_load: 0,
        failing_write: 2,
    };
    expect(&rt, &case, Status::Source, "refused")
}

#[test]
fn the_second_file_is_named_by_its_faults(rt: HostRuntime) -> Result<(), Fail> {
    let words = ["check", "m", "m.rdc", "m.v", "p.v"];
    let rows = [
        (
            "`endif",
            Status::Source,
            "refused source unbalanced p.v:1:1\n",
        ),
        (
            "\n1'b",
            Status::Source,
            "refused source badnumber p.v:2:1\n",
        ),
        (
            "endmodule",
            Status::Source,
            "refused source syntax p.v:1:1\n",
        ),
        // a module that the top doesn't use makes no difference
        ("module n; endmodule", Status::Hazard, CROSSING),
        // the second one of a name is named
        (
            "module m; endmodule",
            Status::Source,
            "refused source twomodules m p.v:1:8\n",
        ),
    ];
    for (source, status, text) in rows {
        let others = [("p.v", source)];
        expect(&rt, &over(&words, &others), status, text)?;
    }
    Ok(())
}

// The design with another data input, reset value, and data of the second flop.
fn written(alloc: Global, input: &str, reset: &str, data: &str) -> Result<String, AllocError> {
    format!(in alloc;
        "module m(input ca, input cb, input ra, input rb, input {input}, output reg q);
  reg a;
  always @(posedge ca or negedge ra) if (!ra) a <= {reset}; else a <= d;
  always @(posedge cb or negedge rb) if (!rb) q <= 1'b0; else q <= {data};
endmodule
"
    )
}

#[test]
fn tokens_may_be_written_otherwise(rt: HostRuntime) -> Result<(), Fail> {
    let rows = [
        ("\\d ", "1'b0", "a"),
        ("d", "1 'b0", "a"),
        ("d", "1'B0", "a"),
        ("d", "1'b0", "\\a "),
    ];
    for (input, reset, data) in rows {
        let source = written(rt.alloc(), input, reset, data)?;
        expect(
            &rt,
            &make_case(&CHECK, CONSTRAINTS, &source),
            Status::Hazard,
            CROSSING,
        )?;
    }
    Ok(())
}

#[test]
fn what_is_of_no_form_is_refused(rt: HostRuntime) -> Result<(), Fail> {
    let not_built = (Status::NotYet, "refused notyet m.v\n");
    let rows = [
        (
            "$d",
            "1'b0",
            "a",
            (Status::Source, "refused source unsupported $d m.v:1:56\n"),
        ),
        (
            "\"d\"",
            "1'b0",
            "a",
            (Status::Source, "refused source syntax m.v:1:56\n"),
        ),
        (
            "table",
            "1'b0",
            "a",
            (
                Status::Source,
                "refused source unsupported table m.v:1:56\n",
            ),
        ),
        ("d", "1'h0", "a", not_built),
        ("d", "0", "a", not_built),
        ("d", "1'b0", "1'b1", not_built),
        (
            "d",
            "1'b0",
            "a;",
            (Status::Source, "refused source syntax m.v:4:70\n"),
        ),
    ];
    for (input, reset, data, (status, text)) in rows {
        let source = written(rt.alloc(), input, reset, data)?;
        expect(&rt, &make_case(&CHECK, CONSTRAINTS, &source), status, text)?;
    }
    Ok(())
}

// Files `f0.v` and so on, each of which includes the next; the last is the design.
fn chain(alloc: Global, count: u32) -> Result<Vec<(String, String)>, AllocError> {
    let mut all = Vec::new(alloc);
    for i in 0..count {
        let name = format!(in alloc; "f{i}.v")?;
        let next = i.saturating_add(1);
        let content = if next < count {
            format!(in alloc; "`include \"f{next}.v\"\n")?
        } else {
            String::from_str(alloc, SOURCE)?
        };
        all.push((name, content))?;
    }
    Ok(all)
}

fn lent(alloc: Global, files: &[(String, String)]) -> Result<Vec<(&str, &str)>, AllocError> {
    let mut all = Vec::new(alloc);
    for (name, content) in files {
        all.push((name.as_str(), content.as_str()))?;
    }
    Ok(all)
}

#[test]
fn files_are_included_31_deep(rt: HostRuntime) -> Result<(), Fail> {
    let words = ["check", "m", "m.rdc", "f0.v"];
    let most = chain(rt.alloc(), 32)?;
    let others = lent(rt.alloc(), &most)?;
    expect(&rt, &over(&words, &others), Status::Hazard, CROSSING)?;
    let more = chain(rt.alloc(), 33)?;
    let others = lent(rt.alloc(), &more)?;
    expect(
        &rt,
        &over(&words, &others),
        Status::Source,
        "refused source toodeep f31.v:1:1\n",
    )
}

fn blanks(alloc: Global, count: usize) -> Result<Vec<u8>, AllocError> {
    Ok(vec![in alloc; b' '; count]?)
}

#[test]
fn a_file_that_is_too_long_is_named(rt: HostRuntime) -> Result<(), Fail> {
    let long = String::from_utf8_lossy(rt.alloc(), &blanks(rt.alloc(), 16_777_217)?)?;
    expect(
        &rt,
        &make_case(&CHECK, CONSTRAINTS, &long),
        Status::Source,
        "refused source toolong m.v\n",
    )?;
    expect(
        &rt,
        &make_case(&CHECK, &long, SOURCE),
        Status::NotYet,
        "refused notyet m.rdc\n",
    )
}
