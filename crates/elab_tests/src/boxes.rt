//! Which module or box a name means, and the signals of a box.

use crate::drivers::draft_of;
use crate::faults::stopped;
use crate::reading::{first, is_wanted, modules};
use crate::scopes::signal;
use crate::shown::bytes_shown;
use elab_binds::{BoxPorts, Found, Library, Pin, PortShape, box_signals, pins_of_box};
use elab_drivers::Draft;
use rdc_outside::{Place, Seq};
use std::alloc::{AllocError, Global};
use std::test::Fail;

const HERE: Place = Place {
    file: 0,
    line: 3,
    col: 7,
};

fn port(
    alloc: Global,
    name: &[u8],
    input: bool,
    msb: u32,
    lsb: u32,
) -> Result<PortShape, AllocError> {
    Ok(PortShape {
        name: Seq::from_vec(name.to_vec(alloc)?),
        input,
        msb,
        lsb,
    })
}

// An input of eight bits and an output of one.
fn ports(alloc: Global) -> Result<Seq<PortShape>, AllocError> {
    let mut ports = Seq::new(alloc);
    ports.push(port(alloc, b"d", true, 7, 0)?)?;
    ports.push(port(alloc, b"q", false, 0, 0)?)?;
    Ok(ports)
}

fn boxes(alloc: Global, names: &[&str]) -> Result<Vec<BoxPorts>, AllocError> {
    let mut boxes = Vec::new(alloc);
    for name in names {
        boxes.push(BoxPorts {
            module: Seq::from_vec(name.as_bytes().to_vec(alloc)?),
            ports: ports(alloc)?,
        })?;
    }
    Ok(boxes)
}

fn found_shown(alloc: Global, library: &Library<'_>, name: &str) -> Result<String, AllocError> {
    match library.find(alloc, name.as_bytes(), HERE) {
        Ok(Found::Module(k)) => format!(in alloc; "module {k}"),
        Ok(Found::Box(k)) => format!(in alloc; "box {k}"),
        Err(fault) => stopped(alloc, fault),
    }
}

// The first row that is not answered so, with what came instead.
fn first_wrong(
    alloc: Global,
    library: &Library<'_>,
    rows: &[(&str, &str)],
) -> Result<Option<String>, Fail> {
    for (name, want) in rows {
        let got = found_shown(alloc, library, *name)?;
        if !is_wanted(got.as_str(), *want)? {
            return Ok(Some(format!(in alloc; "{name}: {want} / {got}")?));
        }
    }
    Ok(None)
}

const TEXT: &str =
    "module m; endmodule module a; endmodule module b; endmodule module a; endmodule";

#[test]
fn a_name_means_one_module_or_box(rt: HostRuntime) -> Result<(), Fail> {
    let found = modules(rt.alloc(), TEXT)?;
    let boxes = boxes(rt.alloc(), &["ram", "b", "rom", "ram"])?;
    let library = Library::new(rt.alloc(), found.as_slice(), &boxes)?;
    let rows: [(&str, &str); 6] = [
        ("m", "module 0"),
        ("a", "TwoModules a 3:7"),
        ("b", "TwoModules b 3:7"),
        ("ram", "box 0"),
        ("rom", "box 2"),
        ("c", "NoModule c 3:7"),
    ];
    assert_eq!(rt; first_wrong(rt.alloc(), &library, &rows)?, None);
    Ok(())
}

fn signals_shown(alloc: Global, d: &Draft) -> Result<String, AllocError> {
    let mut out = String::new(alloc);
    for placed in &d.drawing.signals {
        signal(alloc, &placed.signal, &mut out)?;
    }
    Ok(out)
}

#[test]
fn a_box_has_a_signal_for_each_port(rt: HostRuntime) -> Result<(), Fail> {
    let found = modules(rt.alloc(), "module m (input n); endmodule")?;
    let mut d = draft_of(rt.alloc(), first(&found)?)?;
    let ports = ports(rt.alloc())?;
    box_signals(rt.alloc(), &mut d.drawing, b"u.l.", ports.as_slice(), HERE)?;
    let got = signals_shown(rt.alloc(), &d)?;
    assert!(rt; got.as_str() == "; u.n wire; u.l.d wire [7:0]; u.l.q wire [0:0]");
    Ok(())
}

fn pins_shown(alloc: Global, pins: &[Pin]) -> Result<String, AllocError> {
    let mut out = String::new(alloc);
    for pin in pins {
        out.push_str(if pin.input { " in " } else { " out " })?;
        bytes_shown(pin.name.as_slice(), &mut out)?;
    }
    Ok(out)
}

#[test]
fn a_box_has_a_pin_for_each_port(rt: HostRuntime) -> Result<(), Fail> {
    let ports = ports(rt.alloc())?;
    let pins = pins_of_box(rt.alloc(), ports.as_slice())?;
    let got = pins_shown(rt.alloc(), &pins)?;
    assert!(rt; got.as_str() == " in d out q");
    Ok(())
}
