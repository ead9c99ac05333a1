//! Choices, gates, reductions and X.
use super::Step::{Before, Between, Choose, Copy, Join, Name, S, U};
use super::{Row, first_wrong};
use std::test::Fail;
use vlog_tree::Binary::{And, LogicalAnd, LogicalOr, Or, Xnor, Xor};
use vlog_tree::Unary::{
    Invert, Not, ReduceAnd, ReduceNand, ReduceNor, ReduceOr, ReduceXnor, ReduceXor,
};

const ROWS: [Row; 33] = [
    // two branches at 1 don't hide a selection that isn't settled, and two at 0 do
    (&[Name(b"a"), Name(b"b"), Name(b"b"), Choose], b"X"),
    (&[Name(b"a"), Name(b"c"), Name(b"c"), Choose], b"0"),
    (&[Name(b"b"), Name(b"a"), Name(b"c"), Choose], b"X"),
    (&[Name(b"c"), Name(b"a"), Name(b"b"), Choose], b"1"),
    (&[Name(b"v"), Name(b"s"), U(6, 1), Choose], b"001101"),
    (&[Name(b"v"), Name(b"s"), S(6, 1), Choose], b"111101"),
    // no law of 0 and 1 alone
    (&[Name(b"a"), Name(b"a"), Before(Invert), Between(Or)], b"X"),
    (&[Name(b"a"), Name(b"a"), Between(Xor)], b"X"),
    (&[Name(b"a"), Name(b"b"), Between(Or)], b"1"),
    (&[Name(b"a"), Name(b"c"), Between(And)], b"0"),
    (&[Name(b"v"), Name(b"x"), Between(And)], b"1000"),
    (&[Name(b"v"), Name(b"x"), Between(Or)], b"1X10"),
    (&[Name(b"v"), Name(b"x"), Between(Xor)], b"0X10"),
    (&[Name(b"v"), Name(b"x"), Between(Xnor)], b"1X01"),
    (&[Name(b"x"), Before(Invert)], b"0X11"),
    // over all bits
    (&[Name(b"v"), Before(ReduceAnd)], b"0"),
    (&[Name(b"x"), Before(ReduceNand)], b"1"),
    (&[Name(b"x"), Before(ReduceOr)], b"1"),
    (&[Name(b"x"), Before(ReduceNor)], b"0"),
    (&[Name(b"v"), Before(ReduceXor)], b"0"),
    (&[Name(b"v"), Before(ReduceXnor)], b"1"),
    (&[Name(b"x"), Before(ReduceXor)], b"X"),
    (&[Name(b"x"), Before(Not)], b"0"),
    (&[Name(b"x"), Name(b"c"), Between(LogicalAnd)], b"0"),
    (&[Name(b"a"), Name(b"v"), Between(LogicalAnd)], b"X"),
    (&[Name(b"a"), Name(b"v"), Between(LogicalOr)], b"1"),
    (&[Name(b"a"), Name(b"c"), Between(LogicalOr)], b"X"),
    // the context's sign extends: of a sign beside one without, 0
    (&[Name(b"s"), S(8, 0), Between(Or)], b"11111101"),
    (&[Name(b"s"), U(8, 0), Between(Or)], b"00001101"),
    (
        &[Name(b"v"), Before(Invert), U(6, 0), Between(Or)],
        b"110101",
    ),
    // the first member is at the top
    (&[Name(b"v"), Name(b"b"), Name(b"a"), Join(3)], b"10101X"),
    (&[U(2, 2), Name(b"a"), Name(b"c"), Copy(2)], b"X0X0"),
    (&[Name(b"s"), Join(1), S(6, 0), Between(Or)], b"001101"),
];

#[test]
fn choices_gates_and_reductions_are_those_of_the_table(rt: HostRuntime) -> Result<(), Fail> {
    match first_wrong(rt.alloc(), &ROWS)? {
        Some(_) => Err(Fail::new("a row has another word")),
        None => Ok(()),
    }
}
