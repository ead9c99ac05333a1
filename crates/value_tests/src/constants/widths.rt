//! Widths, signs and contexts.
use super::Step::{Before, Between, Choose, Copy, Join, Name, S, U};
use super::{Row, expression, first_wrong, names, shown};
use std::test::Fail;
use vlog_const::{ConstValue, Shape, Whole, value_in};
use vlog_tree::Binary::{
    Add, And, Equal, Less, Multiply, Or, Power, ShiftLeft, ShiftRight, Subtract,
};
use vlog_tree::Unary::{Invert, Minus, Not, Plus, ReduceXor};

const ALONE: [Row; 27] = [
    (&[U(8, 255)], "8u255"),
    (&[S(32, 5)], "32s5"),
    (&[Name(b"a")], "8u165"),
    (&[Name(b"s")], "4s13"),
    // 8'hff + 8'h1 keeps 8 bits; beside a 9-bit operand it has 9
    (&[U(8, 255), U(8, 1), Between(Add)], "8u0"),
    (&[U(8, 255), U(9, 1), Between(Add)], "9u256"),
    // a signed operand is extended by its sign only among signed ones
    (&[S(4, 15), S(8, 1), Between(Add)], "8s0"),
    (&[S(4, 15), U(8, 1), Between(Add)], "8u16"),
    (&[U(4, 15), S(8, 1), Between(Add)], "8u16"),
    (&[Name(b"s"), S(8, 0), Between(Or)], "8s253"),
    // ~0 is 32 ones, and more in a wider context
    (&[S(32, 0), Before(Invert)], "32s4294967295"),
    (
        &[S(32, 0), Before(Invert), U(40, 0), Between(Or)],
        "40u1099511627775",
    ),
    (&[U(4, 0), Before(Invert), U(8, 0), Between(Or)], "8u255"),
    (&[U(4, 1), Before(Minus), U(8, 0), Between(Or)], "8u255"),
    (&[S(4, 8), Before(Plus)], "4s8"),
    (&[S(4, 8), Before(Minus)], "4s8"),
    (&[U(8, 3), U(8, 5), Between(Subtract)], "8u254"),
    (&[U(4, 15), U(4, 15), Between(Multiply)], "4u1"),
    // one bit, without a sign
    (&[S(8, 0), Before(Not)], "1u1"),
    (&[S(8, 7), Before(ReduceXor)], "1u1"),
    (&[S(8, 7), S(8, 7), Between(Equal)], "1u1"),
    // the left operand of a shift or a power gives the width and the sign
    (&[S(4, 3), U(8, 1), Between(ShiftLeft)], "4s6"),
    (&[U(4, 3), S(32, 2), Between(Power)], "4u9"),
    (
        &[
            U(8, 255),
            U(8, 1),
            Between(Add),
            U(4, 1),
            Between(ShiftRight),
        ],
        "8u0",
    ),
    // both sides of ?: have one width and one sign
    (&[U(1, 1), S(4, 15), S(8, 0), Choose], "8s255"),
    (&[U(1, 1), S(4, 15), U(8, 0), Choose], "8u15"),
    (
        &[U(2, 2), U(4, 15), U(8, 0), Choose, U(4, 1), Between(And)],
        "8u1",
    ),
];

const JOINED: [Row; 10] = [
    (&[U(4, 10), U(4, 5), Join(2)], "8u165"),
    (&[S(4, 15), Join(1)], "4u15"),
    (&[S(32, 4), U(1, 1), Copy(1)], "4u15"),
    (
        &[S(32, 4), U(1, 1), Copy(1), S(32, 15), Between(Equal)],
        "1u1",
    ),
    (&[S(32, 2), U(2, 1), U(1, 1), Copy(2)], "6u27"),
    // a count of 0, or below, gives no bits
    (&[S(32, 0), U(1, 1), Copy(1)], "0u0"),
    (&[S(32, 1), Before(Minus), U(1, 1), Copy(1)], "0u0"),
    (&[U(4, 9), S(32, 0), U(1, 1), Copy(1), Join(2)], "4u9"),
    (&[S(32, 0), U(1, 1), Copy(1), U(4, 9), Between(Add)], "4u9"),
    // a member stands by itself
    (
        &[
            U(4, 15),
            U(4, 1),
            Between(Add),
            U(4, 0),
            Join(2),
            U(16, 0),
            Between(Or),
        ],
        "16u0",
    ),
];

// in a context of 9 bits
const WITHIN: [Row; 7] = [
    (&[U(8, 255), U(8, 1), Between(Add)], "9u256"),
    (&[U(4, 0), Before(Invert)], "9u511"),
    (&[S(4, 15)], "9s511"),
    (&[S(4, 15), U(4, 0), Between(Or)], "9u15"),
    (&[S(4, 15), S(4, 1), Between(Less)], "9u1"),
    (&[U(4, 15), U(4, 15), Between(Add), Join(1)], "9u14"),
    (&[U(16, 65535)], "16u65535"),
];

#[test]
fn widths_and_signs_are_the_standards(rt: HostRuntime) -> Result<(), Fail> {
    assert_eq!(rt; first_wrong(rt.alloc(), 0, &ALONE)?, None);
    assert_eq!(rt; first_wrong(rt.alloc(), 0, &JOINED)?, None);
    assert_eq!(rt; first_wrong(rt.alloc(), 9, &WITHIN)?, None);
    Ok(())
}

// 4'sd15 in contexts of a width and a sign
const INSIDE: [(u32, bool, &'static str); 4] = [
    (9, false, "9u15"),
    (9, true, "9s511"),
    (3, true, "3s7"),
    (129, true, "TooWide 1"),
];

#[test]
fn a_context_is_taken_as_it_is(rt: HostRuntime) -> Result<(), Fail> {
    let alloc = rt.alloc();
    let env = names(alloc)?;
    let e = expression(alloc, &[S(4, 15)])?;
    for (width, signed, want) in &INSIDE {
        let context = Shape {
            width: *width,
            signed: *signed,
        };
        let got = shown(alloc, value_in(alloc, &e, &env, context))?;
        assert_eq!(rt; got.as_str(), *want);
    }
    Ok(())
}

#[test]
fn a_signed_value_is_a_number_below_0(rt: HostRuntime) -> Result<(), Fail> {
    let low = Whole::of(ConstValue {
        bits: 15,
        width: 4,
        signed: true,
    });
    let high = Whole {
        negative: false,
        magnitude: 3,
    };
    assert!(rt; low.negative && low.magnitude == 1);
    assert!(rt; low.count() == 0 && high.count() == 3);
    assert!(rt; high.down_to(low) == 5 && low.down_to(high) == 0);
    Ok(())
}
