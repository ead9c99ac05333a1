//! Lines by hand over one small net, and what they are there.

use crate::claims::is_past_limit;
use crate::small_net::Small;
use crate::{BindFault, BoundForm, BoundLine, Ports, bind};
use cons_file::{ConsFault, read_constraints};
use rdc_outside::Seq;
use std::alloc::{AllocError, Global};
use std::test::Fail;

fn flag(b: bool) -> u8 {
    if b { 1 } else { 0 }
}

// A bound line's number and form, each with a blank behind it.
fn line_shown(alloc: Global, line: &BoundLine) -> Result<String, AllocError> {
    let n = line.number;
    match &line.form {
        BoundForm::Clock(p) => format!(in alloc; "{n}:clock {p} "),
        BoundForm::Reset(s, high) => {
            let high = flag(*high);
            format!(in alloc; "{n}:reset {s} {high} ")
        }
        BoundForm::Tie(p, one) => {
            let one = flag(*one);
            format!(in alloc; "{n}:tie {p} {one} ")
        }
        BoundForm::Steady(p) => format!(in alloc; "{n}:steady {p} "),
        BoundForm::Track(flops) => {
            let mut all = format!(in alloc; "{n}:track ")?;
            for flop in flops.as_slice() {
                let one = format!(in alloc; "{flop} ")?;
                all.push_str(one.as_str())?;
            }
            Ok(all)
        }
        BoundForm::Order(a, b) => format!(in alloc; "{n}:order {a} {b} "),
        BoundForm::Isolate(r, node, one) => {
            let one = flag(*one);
            format!(in alloc; "{n}:isolate {r} {node} {one} ")
        }
        BoundForm::Quiet(r, c) => format!(in alloc; "{n}:quiet {r} {c} "),
        BoundForm::Waive(s, reason) => {
            let count = reason.len();
            format!(in alloc; "{n}:waive {s} {count} ")
        }
    }
}

fn fault_shown(alloc: Global, fault: BindFault) -> Result<String, AllocError> {
    match fault {
        BindFault::Memory => String::from_str(alloc, "memory"),
        BindFault::NoName(n) => format!(in alloc; "noname {n}"),
        BindFault::NotOneBit(n) => format!(in alloc; "notonebit {n}"),
        BindFault::NotAnInput(n) => format!(in alloc; "notaninput {n}"),
        BindFault::NotAFlop(n) => format!(in alloc; "notaflop {n}"),
        BindFault::NotAReset(n) => format!(in alloc; "notareset {n}"),
        BindFault::NotAClock(n) => format!(in alloc; "notaclock {n}"),
        BindFault::ClockRead(n) => format!(in alloc; "clockread {n}"),
        BindFault::Twice(n) => format!(in alloc; "twice {n}"),
        BindFault::TrackLimit(n) => format!(in alloc; "tracklimit {n}"),
    }
}

// What the lines of a file are in the small net, or the first fault.
fn shown(alloc: Global, file: &[u8]) -> Result<String, AllocError> {
    if file.len() > 1000 {
        return String::from_str(alloc, "long");
    }
    let lines = match read_constraints(alloc, file) {
        Ok(lines) => lines,
        Err(ConsFault::Memory) => return String::from_str(alloc, "memory"),
        Err(_) => return String::from_str(alloc, "no file"),
    };
    match bind(alloc, &Small, &lines) {
        Err(fault) => fault_shown(alloc, fault),
        Ok(bound) => {
            let mut all = String::new(alloc);
            for line in bound.lines.as_slice() {
                let one = line_shown(alloc, line)?;
                all.push_str(one.as_str())?;
            }
            Ok(all)
        }
    }
}

// The first row that is not bound as it should be.
fn first_wrong(alloc: Global, rows: &[(&[u8], &str)]) -> Result<Option<usize>, AllocError> {
    for (i, (file, want)) in rows.iter().enumerate() {
        let got = shown(alloc, *file)?;
        if got.as_str() != *want {
            return Ok(Some(i));
        }
    }
    Ok(None)
}

#[test]
fn each_name_is_its_bit(rt: HostRuntime) -> Result<(), Fail> {
    let rows: [(&[u8], &str); 15] = [
        (b"rdc 1\n", ""),
        (b"rdc 1\nclock c", "2:clock 0 "),
        (
            b"rdc 1\nreset r low\n\nreset u1.f high",
            "2:reset 5 0 4:reset 6 1 ",
        ),
        (b"rdc 1\ntie k 1\ntie d 0", "2:tie 2 1 3:tie 1 0 "),
        (b"rdc 1\nsteady k", "2:steady 2 "),
        (b"rdc 1\ntrack q", "2:track 3 4 "),
        (b"rdc 1\ntrack q[1]\ntrack u1.f", "2:track 4 3:track 6 "),
        // a name may stand before the line that declares it
        (
            b"rdc 1\norder r before u1.f\nreset u1.f low\nreset r low",
            "2:order 5 6 3:reset 6 0 4:reset 5 0 ",
        ),
        (
            b"rdc 1\nreset r low\nisolate r when a+b is 1",
            "2:reset 5 0 3:isolate 5 7 1 ",
        ),
        (
            b"rdc 1\nreset r low\nisolate r when w is 0",
            "2:reset 5 0 3:isolate 5 6 0 ",
        ),
        (
            b"rdc 1\nquiet r c\nreset r low\nclock c",
            "2:quiet 5 0 3:reset 5 0 4:clock 0 ",
        ),
        (b"rdc 1\nwaive q[0] known", "2:waive 3 5 "),
        // one of each of a flop, and lines that may be repeated
        (
            b"rdc 1\nreset u1.f low\ntrack u1.f\nwaive u1.f a",
            "2:reset 6 0 3:track 6 4:waive 6 1 ",
        ),
        (
            b"rdc 1\nreset r low\nquiet r c\nquiet r c\nclock c",
            "2:reset 5 0 3:quiet 5 0 4:quiet 5 0 5:clock 0 ",
        ),
        (b"rdc 1\nclock k", "2:clock 2 "),
    ];
    assert_eq!(rt; first_wrong(rt.alloc(), &rows)?, None);
    Ok(())
}

#[test]
fn the_first_fault_is_answered(rt: HostRuntime) -> Result<(), Fail> {
    let rows: [(&[u8], &str); 36] = [
        (b"rdc 1\nclock x", "noname 2"),
        (b"rdc 1\nclock q[2]", "noname 2"),
        (b"rdc 1\nclock u1", "noname 2"),
        (b"rdc 1\ntrack x", "noname 2"),
        (b"rdc 1\nclock c\nwaive x y", "noname 3"),
        (b"rdc 1\nclock q", "notonebit 2"),
        (b"rdc 1\nreset v low", "notonebit 2"),
        (b"rdc 1\nwaive q y", "notonebit 2"),
        (b"rdc 1\nreset r low\nisolate r when v is 1", "notonebit 3"),
        (b"rdc 1\nclock q[0]", "notaninput 2"),
        (b"rdc 1\ntie u1.f 0", "notaninput 2"),
        (b"rdc 1\nsteady a+b", "notaninput 2"),
        (b"rdc 1\ntrack d", "notaflop 2"),
        (b"rdc 1\ntrack v", "notaflop 2"),
        (b"rdc 1\ntrack w", "notaflop 2"),
        (b"rdc 1\nwaive v[0] a copy", "notaflop 2"),
        (b"rdc 1\nreset a+b low", "notareset 2"),
        (b"rdc 1\nreset w low", "notareset 2"),
        (b"rdc 1\norder r before u1.f\nreset r low", "notareset 2"),
        (b"rdc 1\norder u1.f before x\nreset r low", "notareset 2"),
        (b"rdc 1\norder r before x\nreset r low", "noname 2"),
        (b"rdc 1\nquiet c r\nclock c\nreset r low", "notareset 2"),
        (b"rdc 1\nquiet r d\nclock c\nreset r low", "notaclock 2"),
        (b"rdc 1\nquiet r q\nclock c\nreset r low", "notonebit 2"),
        (
            b"rdc 1\nisolate w when x is 0\nreset u1.f low",
            "notareset 2",
        ),
        (b"rdc 1\nclock d", "clockread 2"),
        (b"rdc 1\nreset r low\nclock r", "clockread 3"),
        (b"rdc 1\nreset r low\nreset r low", "twice 3"),
        (b"rdc 1\ntie k 0\nsteady k", "twice 3"),
        (b"rdc 1\nclock k\nreset k low", "twice 3"),
        (b"rdc 1\nreset u1.f low\nreset u1.f high", "twice 3"),
        (b"rdc 1\ntrack q\ntrack q[1]", "twice 3"),
        (b"rdc 1\ntrack q[0]\ntrack q", "twice 3"),
        (b"rdc 1\nwaive u1.f a\nwaive u1.f b", "twice 3"),
        // the first of two faulty lines, and the first fault of one
        (b"rdc 1\ntie k 0\ntie k 0\nclock x", "twice 3"),
        (b"rdc 1\ntie d 0\nclock d", "clockread 3"),
    ];
    assert_eq!(rt; first_wrong(rt.alloc(), &rows)?, None);
    Ok(())
}

#[test]
fn sixteen_flops_are_tracked_at_most(rt: HostRuntime) -> Result<(), Fail> {
    let sixteen = BoundForm::Track(Seq::from_vec(vec![in rt.alloc(); 0u32; 16]?));
    let one = BoundForm::Track(Seq::from_vec(vec![in rt.alloc(); 0u32; 1]?));
    let mut tracked = 0;
    assert!(rt; !is_past_limit(&mut tracked, &sixteen));
    assert!(rt; is_past_limit(&mut tracked, &one));
    assert!(rt; Ports::Chip != Ports::Block);
    Ok(())
}
