//! Sums, products, comparisons and shifts.
use super::Step::{Before, Between, Name, S, U};
use super::{Row, first_wrong};
use std::test::Fail;
use vlog_tree::Binary::{
    Add, ArithmeticShiftLeft, ArithmeticShiftRight, AtLeast, AtMost, CaseEqual, CaseNotEqual,
    Divide, Equal, Greater, Less, Multiply, NotEqual, Or, Power, Remainder, ShiftLeft, ShiftRight,
    Subtract,
};
use vlog_tree::Unary::{Minus, Plus};

const ROWS: [Row; 41] = [
    (&[Name(b"v"), U(4, 7), Between(Add)], b"0001"),
    (&[Name(b"v"), U(5, 7), Between(Add)], b"10001"),
    (&[Name(b"v"), U(4, 11), Between(Subtract)], b"1111"),
    (&[Name(b"v"), U(4, 3), Between(Multiply)], b"1110"),
    (&[Name(b"s"), S(8, 3), Between(Multiply)], b"11110111"),
    (&[Name(b"v"), Before(Minus)], b"0110"),
    (&[Name(b"x"), Before(Plus)], b"1X00"),
    // an X reaches as far as carries may
    (&[Name(b"x"), U(4, 0), Between(Add)], b"1X00"),
    (&[Name(b"x"), U(4, 4), Between(Add)], b"XX00"),
    (&[Name(b"x"), U(4, 2), Between(Multiply)], b"X000"),
    // both operands at the larger width, signed where both are
    (&[Name(b"v"), U(4, 11), Between(Less)], b"1"),
    (&[Name(b"v"), U(4, 10), Between(Less)], b"0"),
    (&[Name(b"v"), U(4, 10), Between(AtMost)], b"1"),
    (&[Name(b"v"), U(4, 10), Between(AtLeast)], b"1"),
    (&[Name(b"v"), U(4, 10), Between(Greater)], b"0"),
    (&[Name(b"s"), S(4, 0), Between(Less)], b"1"),
    (&[Name(b"s"), U(4, 0), Between(Less)], b"0"),
    (&[Name(b"s"), S(8, 253), Between(Equal)], b"1"),
    (&[Name(b"s"), U(8, 253), Between(Equal)], b"0"),
    (&[Name(b"s"), U(8, 13), Between(CaseEqual)], b"1"),
    (&[Name(b"s"), U(8, 13), Between(CaseNotEqual)], b"0"),
    (&[Name(b"x"), U(4, 8), Between(Equal)], b"X"),
    (&[Name(b"x"), U(4, 0), Between(Equal)], b"0"),
    (&[Name(b"x"), U(4, 0), Between(NotEqual)], b"1"),
    (&[Name(b"x"), U(4, 4), Between(Less)], b"0"),
    (&[Name(b"x"), U(4, 12), Between(Less)], b"X"),
    // the left operand of a shift stands in the context, the amount by itself
    (&[Name(b"v"), U(2, 1), Between(ShiftLeft)], b"0100"),
    (
        &[
            Name(b"v"),
            U(2, 1),
            Between(ArithmeticShiftLeft),
            U(5, 0),
            Between(Or),
        ],
        b"10100",
    ),
    (&[Name(b"v"), U(4, 4), Between(ShiftRight)], b"0000"),
    (&[Name(b"s"), U(2, 1), Between(ShiftRight)], b"0110"),
    (
        &[Name(b"s"), U(2, 1), Between(ArithmeticShiftRight)],
        b"1110",
    ),
    (
        &[Name(b"s"), U(3, 5), Between(ArithmeticShiftRight)],
        b"1111",
    ),
    (
        &[Name(b"v"), U(2, 1), Between(ArithmeticShiftRight)],
        b"0101",
    ),
    (
        &[
            Name(b"s"),
            U(2, 1),
            Between(ArithmeticShiftRight),
            U(4, 0),
            Between(Or),
        ],
        b"0110",
    ),
    (
        &[Name(b"s"), Name(b"a"), Between(ArithmeticShiftRight)],
        b"XXXX",
    ),
    (&[Name(b"v"), Name(b"a"), Between(ShiftLeft)], b"XXX0"),
    // constants alone
    (&[U(4, 7), U(4, 2), Between(Divide)], b"0011"),
    (&[S(4, 9), S(4, 2), Between(Remainder)], b"1111"),
    (&[U(4, 2), U(4, 3), Between(Power)], b"1000"),
    (&[U(4, 7), U(4, 0), Between(Divide)], b"0000"),
    (&[Name(b"v"), U(4, 2), Between(Divide)], b"0000"),
];

#[test]
fn sums_comparisons_and_shifts_are_those_of_the_table(rt: HostRuntime) -> Result<(), Fail> {
    match first_wrong(rt.alloc(), &ROWS)? {
        Some(_) => Err(Fail::new("a row has another word")),
        None => Ok(()),
    }
}
