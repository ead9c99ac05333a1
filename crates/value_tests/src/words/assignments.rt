//! Values as on the right of an assignment.
use super::Step::{Before, Between, Name, U};
use super::{SIGNALS, Step, design, expression, shown, state};
use design_form::eval_within;
use std::alloc::Global;
use std::test::Fail;
use vlog_tree::Binary::{Add, Less, Or};
use vlog_tree::Unary::Invert;

/// An expression, the width of what it is assigned to, and its word.
type Row = (&'static [Step], usize, &'static [u8]);

const ROWS: [Row; 7] = [
    // in the larger width, so that a carry stays
    (&[Name(b"v"), U(4, 7), Between(Add)], 5, b"10001"),
    (&[Name(b"v"), U(4, 7), Between(Add)], 2, b"0001"),
    (&[Name(b"v"), Before(Invert)], 6, b"110101"),
    // by its own sign
    (&[Name(b"s")], 6, b"111101"),
    (&[Name(b"v")], 6, b"001010"),
    (&[Name(b"s"), U(4, 0), Between(Or)], 6, b"001101"),
    // a comparison is one bit, and 0 above it
    (&[Name(b"v"), U(4, 11), Between(Less)], 3, b"001"),
];

// The number of the first row that isn't valued as it should be.
fn first_wrong(alloc: Global) -> Result<Option<usize>, Fail> {
    let design = design(alloc, &SIGNALS)?;
    let state = state(alloc, &design, &SIGNALS)?;
    for (number, (steps, width, want)) in ROWS.iter().enumerate() {
        let e = expression(alloc, *steps)?;
        let Ok(word) = eval_within(alloc, &design, &e, &state, *width) else {
            return Err(Fail::new("no memory"));
        };
        if shown(alloc, &word)?.as_slice() != *want {
            return Ok(Some(number));
        }
    }
    Ok(None)
}

#[test]
fn the_larger_width_is_the_context_of_what_is_assigned(rt: HostRuntime) -> Result<(), Fail> {
    match first_wrong(rt.alloc())? {
        Some(_) => Err(Fail::new("a row has another word")),
        None => Ok(()),
    }
}
