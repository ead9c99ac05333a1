//! Processes as texts, for the tests: the printed names of the bits that the first one assigns, without those of `i` and `j`.

use crate::reading::{WANT, is_wanted, modules};
use design_form::Design;
use elab_names::ElabFault;
use rdc_outside::{Place, Seq};
use std::alloc::{AllocError, Global};
use std::test::Fail;
use vlog_elab::elaborate;
use vlog_proc::{Assigned, ProcFault, run_process};

fn put_bytes(bytes: &[u8], out: &mut String) -> Result<(), AllocError> {
    for b in bytes {
        out.push(char::from(*b))?;
    }
    Ok(())
}

fn placed(alloc: Global, word: &str, place: Place) -> Result<String, AllocError> {
    let line = place.line;
    let col = place.col;
    format!(in alloc; "{word} {line}:{col}")
}

fn named(alloc: Global, word: &str, name: &Seq<u8>, place: Place) -> Result<String, AllocError> {
    let mut out = String::from_str(alloc, word)?;
    out.push_str(" ")?;
    put_bytes(name.as_slice(), &mut out)?;
    placed(alloc, out.as_str(), place)
}

fn stopped(alloc: Global, fault: ProcFault) -> Result<String, AllocError> {
    match fault {
        ProcFault::Memory => String::from_str(alloc, "Memory"),
        ProcFault::Latch(name, place) => named(alloc, "Latch", &name, place),
        ProcFault::IncompleteList(name, place) => named(alloc, "IncompleteList", &name, place),
        ProcFault::WrongAssign(name, place) => named(alloc, "WrongAssign", &name, place),
        ProcFault::LoopLimit(place) => placed(alloc, "LoopLimit", place),
        ProcFault::Const(_) => String::from_str(alloc, "Const"),
        ProcFault::NotBuilt(place) => placed(alloc, "NotBuilt", place),
    }
}

fn bits_of(alloc: Global, design: &Design, assigned: &Assigned) -> Result<String, AllocError> {
    let mut out = String::new(alloc);
    for bit in assigned.bits.as_slice() {
        if let Some(name) = design.bit_name(*bit) {
            if !name.starts_with(b"i") && !name.starts_with(b"j") {
                out.push_str(" ")?;
                put_bytes(name, &mut out)?;
            }
        }
    }
    Ok(out)
}

fn shown(
    alloc: Global,
    design: &Design,
    answer: Result<Assigned, ProcFault>,
) -> Result<String, AllocError> {
    match answer {
        Ok(assigned) => bits_of(alloc, design, &assigned),
        Err(fault) => stopped(alloc, fault),
    }
}

fn answer(alloc: Global, design: &Design) -> Option<Result<Assigned, ProcFault>> {
    if design.parts().processes.as_slice().is_empty() {
        return None;
    }
    Some(run_process(alloc, design, 0))
}

fn first(alloc: Global, design: &Design) -> Result<String, Fail> {
    match answer(alloc, design) {
        Some(found) => Ok(shown(alloc, design, found)?),
        None => Err(Fail::new("no process")),
    }
}

// What is said of the first process below the top `m`.
fn said(alloc: Global, text: &str) -> Result<String, Fail> {
    let found = modules(alloc, text)?;
    match elaborate(alloc, found.as_slice(), "m", &[]) {
        Ok(design) => first(alloc, &design),
        Err(ElabFault::Memory) => Err(Fail::new(WANT)),
        Err(_) => Ok(String::from_str(alloc, "no design")?),
    }
}

// What stands before a row, which begins the second line.
const HEAD: &str =
    "module m (input c, d, e, input [1:0] s, input [3:0] v, input signed [1:0] t, output reg y, output reg [3:0] q); reg x; reg [3:0] p; wire w; integer i, j;\n";

// The first row that isn't answered so, with what came instead.
pub(crate) fn wrong(alloc: Global, rows: &[(&str, &str)]) -> Result<Option<String>, Fail> {
    for (row, want) in rows {
        let text = format!(in alloc; "{HEAD}{row}\nendmodule")?;
        let got = said(alloc, text.as_str())?;
        if !is_wanted(got.as_str(), *want)? {
            return Ok(Some(format!(in alloc; "{row}: {want} / {got}")?));
        }
    }
    Ok(None)
}
