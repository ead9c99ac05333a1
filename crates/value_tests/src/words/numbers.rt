//! Bits in the byte order of their printed names.
use super::{Declared, design};
use design_form::{Bounds, Design};
use std::test::Fail;

/// The order is `a.y`, `a[0]`, `a[0].x`, `a[10]`, `a[1]`, `a[2]` and so on: `.` stands before `[`, and `0` before `]`.
const SIGNALS: [Declared; 4] = [
    (b"a", false, Some(Bounds { msb: 0, lsb: 10 }), b""),
    (b"a.y", false, None, b""),
    (b"a[0].x", false, None, b""),
    (b"b", false, Some(Bounds { msb: 5, lsb: 5 }), b""),
];

fn is_numbered(design: &Design, name: &[u8], number: u32) -> bool {
    let found = match design.find(name) {
        Some(found) => found == number,
        None => false,
    };
    let called = match design.bit_name(number) {
        Some(called) => called == name,
        None => false,
    };
    found && called
}

#[test]
fn bits_are_numbered_by_their_printed_names(rt: HostRuntime) -> Result<(), Fail> {
    let design = design(rt.alloc(), &SIGNALS)?;
    let order = design.bits() == 14
        && is_numbered(&design, b"a.y", 0)
        && is_numbered(&design, b"a[0]", 1)
        && is_numbered(&design, b"a[0].x", 2)
        && is_numbered(&design, b"a[10]", 3)
        && is_numbered(&design, b"a[1]", 4)
        && is_numbered(&design, b"a[2]", 5)
        && is_numbered(&design, b"b[5]", 13);
    if order {
        Ok(())
    } else {
        Err(Fail::new("another order"))
    }
}

#[test]
fn the_least_significant_bit_of_a_range_that_counts_up_has_the_greatest_index(
    rt: HostRuntime,
) -> Result<(), Fail> {
    let design = design(rt.alloc(), &SIGNALS)?;
    let Some(numbers) = design.bits_of(b"a") else {
        return Err(Fail::new("no signal"));
    };
    if numbers == [3u32, 12, 11, 10, 9, 8, 7, 6, 5, 4, 1].as_slice() {
        Ok(())
    } else {
        Err(Fail::new("other numbers"))
    }
}
