//! Faults as texts, for the tests: the word, the name, and the line and column.

use crate::shown::bytes_shown;
use elab_decls::DeclFault;
use elab_names::ElabFault;
use rdc_outside::{Place, Seq};
use std::alloc::{AllocError, Global};
use vlog_const::ConstFault;

fn placed(alloc: Global, word: &str, place: Place) -> Result<String, AllocError> {
    let line = place.line;
    let col = place.col;
    format!(in alloc; "{word} {line}:{col}")
}

fn named(alloc: Global, word: &str, name: &Seq<u8>, place: Place) -> Result<String, AllocError> {
    let mut out = String::from_str(alloc, word)?;
    out.push_str(" ")?;
    bytes_shown(name.as_slice(), &mut out)?;
    placed(alloc, out.as_str(), place)
}

pub(crate) fn refused(alloc: Global, fault: DeclFault) -> Result<String, AllocError> {
    match fault {
        DeclFault::Memory => String::from_str(alloc, "Memory"),
        DeclFault::NoPort(name, place) => named(alloc, "NoPort", &name, place),
        DeclFault::TwiceDeclared(name, place) => named(alloc, "TwiceDeclared", &name, place),
    }
}

// No module of that name, where it stands if it does.
fn absent(alloc: Global, name: &Seq<u8>, place: Option<Place>) -> Result<String, AllocError> {
    match place {
        Some(place) => named(alloc, "NoModule", name, place),
        None => String::from_str(alloc, "NoModule"),
    }
}

fn no_constant(alloc: Global, fault: ConstFault) -> Result<String, AllocError> {
    match fault {
        ConstFault::Memory => String::from_str(alloc, "Memory"),
        ConstFault::NotConstant(place) => placed(alloc, "NotConstant", place),
        ConstFault::TooWide(place) => placed(alloc, "TooWide", place),
        ConstFault::ZeroDivisor(place) => placed(alloc, "ZeroDivisor", place),
    }
}

pub(crate) fn stopped(alloc: Global, fault: ElabFault) -> Result<String, AllocError> {
    match fault {
        ElabFault::Memory => String::from_str(alloc, "Memory"),
        ElabFault::NoPort(name, place) => named(alloc, "NoPort", &name, place),
        ElabFault::TwiceDeclared(name, place) => named(alloc, "TwiceDeclared", &name, place),
        ElabFault::Undeclared(name, place) => named(alloc, "Undeclared", &name, place),
        ElabFault::NoModule(name, place) => absent(alloc, &name, place),
        ElabFault::TwoModules(name, place) => named(alloc, "TwoModules", &name, place),
        ElabFault::PortCount(place) => placed(alloc, "PortCount", place),
        ElabFault::NotAssignable(place) => placed(alloc, "NotAssignable", place),
        ElabFault::BadRange(place) => placed(alloc, "BadRange", place),
        ElabFault::WidthLimit(place) => placed(alloc, "WidthLimit", place),
        ElabFault::NotBuilt(place) => placed(alloc, "NotBuilt", place),
        ElabFault::Const(cause) => no_constant(alloc, cause),
        _ => String::from_str(alloc, "another fault"),
    }
}
