//! Whole calls over files and a sink in memory. What is expected was written by hand.
mod hierarchies;
mod sources;

use crate::signing::signoff;
use rdc_outside::{MemShelf, MemSink, Status};
use std::alloc::{AllocError, Global};
use std::process::Abort;
use std::test::Fail;

const CONSTRAINTS: &str = "rdc 1\nclock ca\nclock cb\nreset ra low\nreset rb low\n";

const SOURCE: &str = "module m(input ca, input cb, input ra, input rb, input d, output reg q);
  reg a;
  always @(posedge ca or negedge ra) if (!ra) a <= 1'b0; else a <= d;
  always @(posedge cb or negedge rb) if (!rb) q <= 1'b0; else q <= a;
endmodule
";

const ONE_RESET: &str = "module m(input ca, input cb, input ra, input rb, input d, output reg q);
  reg a;
  always @(posedge ca or negedge ra) if (!ra) a <= 1'b0; else a <= d;
  always @(posedge cb or negedge ra) if (!ra) q <= 1'b0; else q <= a;
endmodule
";

const RESET_AS_DATA: &str =
    "module m(input ca, input cb, input ra, input rb, input d, output reg q);
  reg a;
  always @(posedge ca or negedge ra) if (!ra) a <= 1'b0; else a <= d;
  always @(posedge cb or negedge rb) if (!rb) q <= 1'b0; else q <= ra;
endmodule
";

const INITIAL: &str = "module m(input ca, input cb, input ra, input rb, input d, output reg q);
  reg a;
  always @(posedge ca or negedge ra) if (!ra) a <= 1'b0; else a <= d;
  initial q = 0;
endmodule
";

// A flat design that is not of the form: a wire of two bits.
const TWO_BITS: &str = "module m(input ca, input cb, input ra, input rb, input d, output reg q);
  reg a;
  wire [1:0] w;
  always @(posedge ca or negedge ra) if (!ra) a <= 1'b0; else a <= d;
  always @(posedge cb or negedge ra) if (!ra) q <= 1'b0; else q <= a;
endmodule
";

const CROSSING: &str =
    "rdc report 1\ntop m\nedge q crossing\nsame 1 crossing 1\nverdict crossing\n";

const CLEAN: &str = "rdc report 1\ntop m\nsame 2 crossing 0\nverdict clean\n";

// What a call is run on: the words, the text of each file (`m.rdc`, `m.v`, and others by name), and the numbers of the
// loads and writes that fail.
#[derive(Clone, Copy)]
struct Case<'a> {
    words: &'a [&'a str],
    constraints: &'a str,
    source: &'a str,
    others: &'a [(&'a str, &'a str)],
    failing_load: u64,
    failing_write: u64,
}

fn make_case<'a>(words: &'a [&'a str], constraints: &'a str, source: &'a str) -> Case<'a> {
    Case {
        words,
        constraints,
        source,
        others: &[],
        failing_load: 0,
        failing_write: 0,
    }
}

fn owned(alloc: Global, words: &[&str]) -> Result<Vec<String>, AllocError> {
    let mut all = Vec::new(alloc);
    for word in words {
        all.push(String::from_str(alloc, word)?)?;
    }
    Ok(all)
}

fn files(alloc: Global, case: &Case) -> Result<Vec<(String, Vec<u8>)>, AllocError> {
    let mut all = Vec::new(alloc);
    for (name, text) in [("m.rdc", case.constraints), ("m.v", case.source)] {
        all.push((
            String::from_str(alloc, name)?,
            text.as_bytes().to_vec(alloc)?,
        ))?;
    }
    for (name, text) in case.others {
        all.push((
            String::from_str(alloc, *name)?,
            text.as_bytes().to_vec(alloc)?,
        ))?;
    }
    Ok(all)
}

// Runs the case on a sink that takes seven bytes a write, and compares what it answers and what it wrote.
fn expect(
    rt: &(impl Abort + AllocGlobal),
    case: &Case,
    status: Status,
    text: &str,
) -> Result<(), Fail> {
    let alloc = rt.alloc();
    let mut failing = Vec::new(alloc);
    failing.push(case.failing_load)?;
    let mut shelf = MemShelf::new(alloc, files(alloc, case)?, failing, 0)?;
    let mut failing = Vec::new(alloc);
    failing.push(case.failing_write)?;
    let mut out = MemSink::new(alloc, failing, 7, 10_000)?;
    let words = owned(alloc, case.words)?;
    assert_eq!(rt;
        signoff(alloc, &words, &mut shelf, &mut out),
        status,
        "{text}"
    );
    assert_eq!(rt; out.bytes(), text.as_bytes());
    Ok(())
}

/// The example with other logic between its flops: declarations, assigns, and what `q` takes.
fn with_logic(
    alloc: Global,
    declared: &str,
    assigned: &str,
    data: &str,
) -> Result<String, AllocError> {
    format!(in alloc;
        "module m(input ca, input cb, input ra, input rb, input d, output reg q{declared});
  reg a;
  {assigned}
  always @(posedge ca or negedge ra) if (!ra) a <= 1'b0; else a <= d;
  always @(posedge cb or negedge rb) if (!rb) q <= 1'b0; else q <= {data};
endmodule
"
    )
}

const CHECK: [&str; 4] = ["check", "m", "m.rdc", "m.v"];

#[test]
fn a_design_is_judged_by_its_resets(rt: HostRuntime) -> Result<(), Fail> {
    expect(
        &rt,
        &make_case(&CHECK, CONSTRAINTS, SOURCE),
        Status::Hazard,
        CROSSING,
    )?;
    expect(
        &rt,
        &make_case(&CHECK, CONSTRAINTS, ONE_RESET),
        Status::Clean,
        CLEAN,
    )?;
    expect(
        &rt,
        &make_case(&CHECK, CONSTRAINTS, RESET_AS_DATA),
        Status::Hazard,
        CROSSING,
    )
}

#[test]
fn a_hazard_passes_through_gates(rt: HostRuntime) -> Result<(), Fail> {
    let reads = [
        // a fold of two values would hide these
        "a & ~a",
        "a | ~a",
        "(a & d) | (~a & d)",
        // a reset in the data
        "d & ra",
        "~(d | ~ra)",
        "((a))",
    ];
    for data in reads {
        let source = with_logic(rt.alloc(), "", "", data)?;
        expect(
            &rt,
            &make_case(&CHECK, CONSTRAINTS, &source),
            Status::Hazard,
            CROSSING,
        )?;
    }
    let wire = with_logic(
        rt.alloc(),
        "",
        "wire w; wire v; assign w = ~v; assign v = a & d;",
        "w",
    )?;
    expect(
        &rt,
        &make_case(&CHECK, CONSTRAINTS, &wire),
        Status::Hazard,
        CROSSING,
    )
}

#[test]
fn logic_of_one_reset_is_clean(rt: HostRuntime) -> Result<(), Fail> {
    for data in ["d", "d & ~d", "(d | q) & ~(q & d)"] {
        // an unrelated wire, and a plain output, may read the other reset's flop
        let source = with_logic(
            rt.alloc(),
            ", output y",
            "wire w; assign w = a & ra; assign y = w;",
            data,
        )?;
        expect(
            &rt,
            &make_case(&CHECK, CONSTRAINTS, &source),
            Status::Clean,
            CLEAN,
        )?;
    }
    Ok(())
}

#[test]
fn assigns_that_read_each_other_are_refused(rt: HostRuntime) -> Result<(), Fail> {
    let source = with_logic(
        rt.alloc(),
        "",
        "wire w; wire v; assign w = v; assign v = ~w;",
        "d",
    )?;
    expect(
        &rt,
        &make_case(&CHECK, CONSTRAINTS, &source),
        Status::NotYet,
        "refused notyet m.v\n",
    )?;
    // a declared clock that clocks nothing stands in an expression
    let source = with_logic(rt.alloc(), ", input cc", "wire w; assign w = cc;", "d")?;
    expect(
        &rt,
        &make_case(
            &CHECK,
            "rdc 1\nclock ca\nclock cb\nclock cc\nreset ra low\nreset rb low\n",
            &source,
        ),
        Status::NotYet,
        "refused notyet m.rdc\n",
    )
}

#[test]
fn what_is_not_built_is_refused(rt: HostRuntime) -> Result<(), Fail> {
    let not_source = "refused notyet m.v\n";
    let not_constraints = "refused notyet m.rdc\n";
    expect(
        &rt,
        &make_case(&CHECK, CONSTRAINTS, TWO_BITS),
        Status::NotYet,
        not_source,
    )?;
    expect(
        &rt,
        &make_case(&CHECK, "", TWO_BITS),
        Status::NotYet,
        not_source,
    )?;
    expect(
        &rt,
        &make_case(&CHECK, "rdc 2\n", SOURCE),
        Status::NotYet,
        not_constraints,
    )
}

#[test]
fn what_is_no_list_of_modules_is_named(rt: HostRuntime) -> Result<(), Fail> {
    let rows = [
        (INITIAL, "refused source unsupported initial m.v:4:3\n"),
        ("module m(a);", "refused source syntax m.v:1:13\n"),
        (
            "module m;\n  assign y = a +;\nendmodule\n",
            "refused source syntax m.v:2:17\n",
        ),
        (
            "module m;\n  assign #1 y = a;\nendmodule\n",
            "refused source unsupported # m.v:2:10\n",
        ),
    ];
    for (source, text) in rows {
        // the constraints are not looked at
        expect(&rt, &make_case(&CHECK, "", source), Status::Source, text)?;
    }
    Ok(())
}

#[test]
fn words_that_ask_for_nothing_are_usage(rt: HostRuntime) -> Result<(), Fail> {
    let lines: [&[&str]; 6] = [
        &[],
        &["check", "m"],
        &["check", "m", "m.rdc"],
        &["prove", "m", "m.rdc", "m.v"],
        &["check", "m", "m.rdc", "-"],
        &["check", "m", "m.rdc", "m.v", "-m.v"],
    ];
    for words in lines {
        expect(
            &rt,
            &make_case(words, CONSTRAINTS, SOURCE),
            Status::Usage,
            "refused usage\n",
        )?;
    }
    Ok(())
}

#[test]
fn the_first_file_that_is_not_loaded_is_named(rt: HostRuntime) -> Result<(), Fail> {
    let no_source = ["check", "m", "m.rdc", "none.v"];
    let no_file = ["check", "m", "none.rdc", "none.v"];
    expect(
        &rt,
        &make_case(&no_source, CONSTRAINTS, SOURCE),
        Status::Absent,
        "refused absent none.v\n",
    )?;
    expect(
        &rt,
        &make_case(&no_file, CONSTRAINTS, SOURCE),
        Status::Absent,
        "refused absent none.rdc\n",
    )?;
    for (failing_load, text) in [(1, "refused read m.rdc\n"), (2, "refused read m.v\n")] {
        let mut failing = make_case(&CHECK, CONSTRAINTS, SOURCE);
        failing.failing_load = failing_load;
        expect(&rt, &failing, Status::Read, text)?;
    }
    Ok(())
}

#[test]
fn a_sink_that_fails_keeps_a_front_of_the_report(rt: HostRuntime) -> Result<(), Fail> {
    let fronts = [
        "",
        "rdc rep",
        "rdc report 1\nt",
        "rdc report 1\ntop m\ned",
        "rdc report 1\ntop m\nedge q cr",
        "rdc report 1\ntop m\nedge q crossing\n",
        "rdc report 1\ntop m\nedge q crossing\nsame 1 ",
        "rdc report 1\ntop m\nedge q crossing\nsame 1 crossin",
        "rdc report 1\ntop m\nedge q crossing\nsame 1 crossing 1\nver",
        "rdc report 1\ntop m\nedge q crossing\nsame 1 crossing 1\nverdict cr",
    ];
    let mut failing = make_case(&CHECK, CONSTRAINTS, SOURCE);
    for text in fronts {
        failing.failing_write = failing.failing_write.saturating_add(1);
        expect(&rt, &failing, Status::Write, text)?;
    }
    let mut refused = make_case(&CHECK, CONSTRAINTS, TWO_BITS);
    refused.failing_write = 2;
    expect(&rt, &refused, Status::NotYet, "refused")
}
