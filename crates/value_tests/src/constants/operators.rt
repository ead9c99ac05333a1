//! What operators give.
use super::Step::{At, Before, Between, Name, S, Slice, U};
use super::{Row, first_wrong};
use std::test::Fail;
use vlog_tree::Binary::{
    Add, And, ArithmeticShiftLeft, ArithmeticShiftRight, AtLeast, AtMost, CaseEqual, CaseNotEqual,
    Divide, Equal, Greater, Less, LogicalAnd, LogicalOr, Multiply, NotEqual, Or, Power, Remainder,
    ShiftLeft, ShiftRight, Subtract, Xnor, Xor,
};
use vlog_tree::Part::{Down, Fixed, Up};
use vlog_tree::Unary::{
    Minus, Not, ReduceAnd, ReduceNand, ReduceNor, ReduceOr, ReduceXnor, ReduceXor,
};

const MOST: u128 = 340282366920938463463374607431768211455;

const TOP: u128 = 170141183460469231731687303715884105728;

const ARITHMETIC: [Row; 20] = [
    (&[U(8, 7), U(8, 2), Between(Divide)], "8u3"),
    // toward zero, and a remainder has the sign of the first operand
    (&[S(8, 249), S(8, 2), Between(Divide)], "8s253"),
    (&[S(8, 7), S(8, 254), Between(Divide)], "8s253"),
    (&[S(8, 249), S(8, 254), Between(Divide)], "8s3"),
    (&[S(8, 249), S(8, 2), Between(Remainder)], "8s255"),
    (&[S(8, 7), S(8, 254), Between(Remainder)], "8s1"),
    (&[S(8, 249), U(8, 2), Between(Divide)], "8u124"),
    (&[S(8, 249), U(8, 2), Between(Remainder)], "8u1"),
    (&[S(8, 128), S(8, 255), Between(Divide)], "8s128"),
    (&[S(32, 2), S(32, 10), Between(Power)], "32s1024"),
    (&[U(8, 3), U(8, 200), Between(Power)], "8u161"),
    (&[S(8, 254), S(8, 3), Between(Power)], "8s248"),
    (&[U(8, 5), U(8, 0), Between(Power)], "8u1"),
    (&[U(128, MOST), U(128, 1), Between(Add)], "128u0"),
    (
        &[U(128, 0), U(128, 1), Between(Subtract)],
        "128u340282366920938463463374607431768211455",
    ),
    (&[U(128, MOST), U(128, MOST), Between(Multiply)], "128u1"),
    (
        &[S(128, TOP), S(128, MOST), Between(Divide)],
        "128s170141183460469231731687303715884105728",
    ),
    (
        &[U(128, 3), U(128, MOST), Between(Power)],
        "128u226854911280625642308916404954512140971",
    ),
    (&[S(128, MOST), S(128, 2), Between(Divide)], "128s0"),
    (
        &[
            U(4, 12),
            U(4, 10),
            Between(And),
            U(4, 1),
            Between(Or),
            U(4, 15),
            Between(Xor),
        ],
        "4u6",
    ),
];

const SHIFTS: [Row; 14] = [
    (
        &[
            S(4, 1),
            Before(Minus),
            U(1, 1),
            Between(ArithmeticShiftRight),
        ],
        "4s15",
    ),
    (&[S(4, 8), S(32, 2), Between(ArithmeticShiftRight)], "4s14"),
    (&[S(4, 8), S(32, 4), Between(ArithmeticShiftRight)], "4s15"),
    (
        &[S(4, 8), S(32, 200), Between(ArithmeticShiftRight)],
        "4s15",
    ),
    (&[S(4, 7), S(32, 4), Between(ArithmeticShiftRight)], "4s0"),
    (&[U(4, 8), S(32, 2), Between(ArithmeticShiftRight)], "4u2"),
    (&[S(4, 8), S(32, 2), Between(ShiftRight)], "4s2"),
    (&[U(4, 9), U(8, 1), Between(ShiftLeft)], "4u2"),
    (&[U(4, 9), U(8, 4), Between(ArithmeticShiftLeft)], "4u0"),
    // an amount has no sign, and stands by itself
    (&[U(8, 1), S(4, 15), Between(ShiftLeft)], "8u0"),
    (
        &[U(16, 1), U(2, 3), U(2, 1), Between(Add), Between(ShiftLeft)],
        "16u1",
    ),
    (
        &[U(128, 1), U(8, 127), Between(ShiftLeft)],
        "128u170141183460469231731687303715884105728",
    ),
    (
        &[S(128, TOP), U(8, 127), Between(ArithmeticShiftRight)],
        "128s340282366920938463463374607431768211455",
    ),
    (
        &[
            S(4, 8),
            S(32, 1),
            Between(ArithmeticShiftRight),
            U(8, 0),
            Between(Or),
        ],
        "8u4",
    ),
];

const TESTS: [Row; 28] = [
    (&[S(4, 15), S(8, 1), Between(Less)], "1u1"),
    (&[S(4, 15), U(8, 1), Between(Less)], "1u0"),
    (&[S(4, 15), S(8, 255), Between(Equal)], "1u1"),
    (&[S(4, 15), U(8, 255), Between(Equal)], "1u0"),
    (&[S(8, 128), S(8, 127), Between(AtMost)], "1u1"),
    (&[S(8, 128), S(8, 127), Between(Greater)], "1u0"),
    (&[U(8, 128), U(8, 127), Between(Greater)], "1u1"),
    (&[S(8, 254), S(8, 255), Between(AtLeast)], "1u0"),
    (&[U(4, 5), U(8, 5), Between(NotEqual)], "1u0"),
    (&[U(4, 5), U(8, 5), Between(CaseEqual)], "1u1"),
    (&[U(4, 5), U(8, 6), Between(CaseNotEqual)], "1u1"),
    // the operands of a comparison go together: 16 in 8 bits
    (
        &[U(4, 15), U(4, 1), Between(Add), U(8, 16), Between(Equal)],
        "1u1",
    ),
    (
        &[U(4, 15), U(4, 1), Between(Add), U(4, 0), Between(Equal)],
        "1u1",
    ),
    (&[U(8, 2), U(8, 0), Between(LogicalAnd)], "1u0"),
    (&[U(8, 2), U(4, 4), Between(LogicalAnd)], "1u1"),
    (&[U(8, 0), U(8, 0), Between(LogicalOr)], "1u0"),
    (
        &[U(4, 15), U(4, 1), Between(Add), U(8, 0), Between(LogicalOr)],
        "1u0",
    ),
    (&[U(4, 8), Before(Not)], "1u0"),
    (&[U(4, 15), Before(ReduceAnd)], "1u1"),
    (&[U(4, 7), Before(ReduceAnd)], "1u0"),
    (&[U(4, 7), Before(ReduceNand)], "1u1"),
    (&[U(4, 4), Before(ReduceOr)], "1u1"),
    (&[U(4, 4), Before(ReduceNor)], "1u0"),
    (&[U(4, 7), Before(ReduceXor)], "1u1"),
    (&[U(4, 7), Before(ReduceXnor)], "1u0"),
    (&[U(128, MOST), Before(ReduceAnd)], "1u1"),
    (&[U(128, MOST), Before(ReduceXor)], "1u0"),
    (&[U(4, 12), U(4, 10), Between(Xnor)], "4u9"),
];

// of 8'b1010_0101 and 4'sb1101
const SELECTS: [Row; 14] = [
    (&[S(32, 0), At(b"a")], "1u1"),
    (&[S(32, 1), At(b"a")], "1u0"),
    (&[S(32, 7), At(b"a")], "1u1"),
    (&[S(32, 8), At(b"a")], "1u0"),
    (&[S(4, 15), At(b"a")], "1u0"),
    (&[S(32, 3), At(b"s")], "1u1"),
    (&[S(32, 7), S(32, 4), Slice(b"a", Fixed)], "4u10"),
    (&[S(32, 4), S(32, 7), Slice(b"a", Fixed)], "0u0"),
    (&[S(32, 9), S(32, 6), Slice(b"a", Fixed)], "4u2"),
    (&[S(32, 2), S(32, 3), Slice(b"a", Up)], "3u1"),
    (&[S(4, 15), S(32, 3), Slice(b"a", Up)], "3u2"),
    (&[S(32, 7), S(32, 3), Slice(b"a", Down)], "3u5"),
    (&[S(32, 1), S(32, 4), Slice(b"a", Down)], "4u4"),
    (
        &[
            S(32, 3),
            S(32, 0),
            Slice(b"s", Fixed),
            U(8, 0),
            Between(Add),
        ],
        "8u13",
    ),
];

#[test]
fn operators_give_what_the_standard_says(rt: HostRuntime) -> Result<(), Fail> {
    assert_eq!(rt; first_wrong(rt.alloc(), 0, &ARITHMETIC)?, None);
    assert_eq!(rt; first_wrong(rt.alloc(), 0, &SHIFTS)?, None);
    assert_eq!(rt; first_wrong(rt.alloc(), 0, &TESTS)?, None);
    assert_eq!(rt; first_wrong(rt.alloc(), 0, &SELECTS)?, None);
    Ok(())
}
