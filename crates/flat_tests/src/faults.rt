//! Faults as texts, for the tests: the word, the name, and the line and column.

use elab_names::ElabFault;
use rdc_outside::{Place, Seq};
use std::alloc::{AllocError, Global};
use vlog_const::ConstFault;

pub(crate) fn bytes_shown(bytes: &[u8], out: &mut String) -> Result<(), AllocError> {
    for b in bytes {
        out.push(char::from(*b))?;
    }
    Ok(())
}

fn placed(alloc: Global, word: &str, place: Place) -> Result<String, AllocError> {
    let line = place.line;
    let col = place.col;
    format!(in alloc; "{word} {line}:{col}")
}

fn called(alloc: Global, word: &str, name: &Seq<u8>) -> Result<String, AllocError> {
    let mut out = String::from_str(alloc, word)?;
    out.push_str(" ")?;
    bytes_shown(name.as_slice(), &mut out)?;
    Ok(out)
}

fn named(alloc: Global, word: &str, name: &Seq<u8>, place: Place) -> Result<String, AllocError> {
    let out = called(alloc, word, name)?;
    placed(alloc, out.as_str(), place)
}

// No module of that name, and where it is instantiated, if it is.
fn absent(alloc: Global, name: &Seq<u8>, place: Option<Place>) -> Result<String, AllocError> {
    match place {
        Some(place) => named(alloc, "NoModule", name, place),
        None => called(alloc, "NoModule", name),
    }
}

fn no_constant(alloc: Global, fault: ConstFault) -> Result<String, AllocError> {
    match fault {
        ConstFault::Memory => String::from_str(alloc, "Memory"),
        ConstFault::NotConstant(place) => placed(alloc, "NotConstant", place),
        ConstFault::TooWide(place) => placed(alloc, "TooWide", place),
        ConstFault::ZeroDivisor(place) => placed(alloc, "ZeroDivisor", place),
    }
}

pub(crate) fn stopped(alloc: Global, fault: ElabFault) -> Result<String, AllocError> {
    match fault {
        ElabFault::Memory => String::from_str(alloc, "Memory"),
        ElabFault::NoModule(name, place) => absent(alloc, &name, place),
        ElabFault::TwoModules(name, place) => named(alloc, "TwoModules", &name, place),
        ElabFault::NoPort(name, place) => named(alloc, "NoPort", &name, place),
        ElabFault::PortCount(place) => placed(alloc, "PortCount", place),
        ElabFault::Undeclared(name, place) => named(alloc, "Undeclared", &name, place),
        ElabFault::TwiceDeclared(name, place) => named(alloc, "TwiceDeclared", &name, place),
        ElabFault::NotAssignable(place) => placed(alloc, "NotAssignable", place),
        ElabFault::Recursion(name, place) => named(alloc, "Recursion", &name, place),
        ElabFault::HierLimit(place) => placed(alloc, "HierLimit", place),
        ElabFault::BadRange(place) => placed(alloc, "BadRange", place),
        ElabFault::WidthLimit(place) => placed(alloc, "WidthLimit", place),
        ElabFault::GenerateLimit(place) => placed(alloc, "GenerateLimit", place),
        ElabFault::Const(cause) => no_constant(alloc, cause),
        ElabFault::Undriven(name, place) => named(alloc, "Undriven", &name, place),
        ElabFault::TwiceDriven(name, place) => named(alloc, "TwiceDriven", &name, place),
        ElabFault::Heavy(place) => placed(alloc, "Heavy", place),
        ElabFault::NotBuilt(place) => placed(alloc, "NotBuilt", place),
    }
}
