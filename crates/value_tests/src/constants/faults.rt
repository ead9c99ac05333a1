//! Why an expression has no value, and where.
use super::Step::{At, Before, Between, Choose, Copy, Join, Name, S, Slice, U};
use super::{Row, first_wrong};
use std::test::Fail;
use vlog_tree::Binary::{Add, Divide, LogicalOr, Power, Remainder};
use vlog_tree::Part::{Fixed, Up};
use vlog_tree::Unary::Minus;

const FAULTS: [Row; 17] = [
    (&[Name(b"b")], "NotConstant 1"),
    (&[U(4, 1), Name(b"b"), Between(Add)], "NotConstant 2"),
    (&[S(32, 0), At(b"b")], "NotConstant 2"),
    // a negative exponent
    (
        &[S(32, 2), S(32, 1), Before(Minus), Between(Power)],
        "NotConstant 3",
    ),
    (&[S(32, 2), S(4, 15), Between(Power)], "NotConstant 2"),
    (&[S(32, 2), U(4, 15), Between(Power)], "32s32768"),
    (&[U(8, 5), U(8, 0), Between(Divide)], "ZeroDivisor 2"),
    (&[U(8, 5), U(8, 0), Between(Remainder)], "ZeroDivisor 2"),
    // 16 in 8 bits is no zero, in 4 it is one
    (
        &[U(8, 5), U(4, 15), U(4, 1), Between(Add), Between(Divide)],
        "8u0",
    ),
    (
        &[U(4, 5), U(4, 15), U(4, 1), Between(Add), Between(Divide)],
        "ZeroDivisor 2",
    ),
    // also in the side that isn't taken
    (
        &[U(1, 1), U(8, 5), U(8, 5), U(8, 0), Between(Divide), Choose],
        "ZeroDivisor 4",
    ),
    (&[U(1, 1), Name(b"b"), Between(LogicalOr)], "NotConstant 2"),
    (&[U(128, 0), U(1, 0), Join(2)], "TooWide 3"),
    (&[U(127, 0), U(1, 1), Join(2)], "128u1"),
    (&[S(32, 129), U(1, 0), Copy(1)], "TooWide 3"),
    (
        &[S(32, 127), S(32, 1), Before(Minus), Slice(b"a", Fixed)],
        "TooWide 4",
    ),
    (&[S(32, 0), S(32, 128), Slice(b"a", Up)], "128u165"),
];

// in a context of 129 bits
const WITHIN: [Row; 1] = [(&[U(8, 1)], "TooWide 1")];

#[test]
fn faults_stand_at_their_places(rt: HostRuntime) -> Result<(), Fail> {
    assert_eq!(rt; first_wrong(rt.alloc(), 0, &FAULTS)?, None);
    assert_eq!(rt; first_wrong(rt.alloc(), 129, &WITHIN)?, None);
    Ok(())
}
