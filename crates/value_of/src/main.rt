//! `value_of`: what expressions are worth, as constants and as values of a design.
//!
//! A line of standard input is a width, a state and an expression. The state is a number whose bit k is the value of the
//! design's bit k, in the one design that `scene.rt` declares. The program answers each line by one of its own: the value
//! as a constant, and the value in that state, both as assigned to so many bits (`specs/Shown.antt`). A line of no such
//! form is answered by `?`.
//! Beside the program: stands on the readers and on the values, and shows what they give. `scripts/values` compares it with
//! a simulator.
#![tactic(auto)]

mod reading;
mod scene;
mod showing;

use design_form::Design;
use rdc_outside::{OutSink, Sink, write_all_of};
use reading::{Line, line_of};
use showing::answer;
use std::alloc::{AllocError, Global};
use std::io::{self, BufRead, BufReader};

/// What is written for a line.
fn answered(alloc: Global, design: &Design, line: &str) -> Result<Vec<u8>, AllocError> {
    match line_of(alloc, line)? {
        Some(Line { width, state, e }) => {
            answer(
                alloc,
                design,
                &scene::state(alloc, design, state)?,
                width,
                &e,
            )
        }
        None => Vec::from_slice(alloc, b"?\n"),
    }
}

fn main(rt: HostRuntime) -> io::Result<()> {
    let alloc = rt.alloc();
    let design = scene::design(alloc)?;
    let mut out = OutSink::new(rt);
    for line in BufReader::new(alloc, rt.reader())?.lines(alloc) {
        let text = answered(alloc, &design, &line?)?;
        if write_all_of(&mut out, &text).is_err() {
            break;
        }
    }
    Ok(())
}
