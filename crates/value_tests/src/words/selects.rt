//! Selects by constants and by variables, of ranges both ways.
use super::Step::{At, Join, Name, S, Slice, U};
use super::{Row, first_wrong};
use std::test::Fail;
use vlog_tree::Part::{Down, Fixed, Up};

const ROWS: [Row; 28] = [
    (&[U(2, 1), At(b"v")], b"1"),
    (&[U(2, 2), At(b"v")], b"0"),
    (&[U(4, 9), At(b"v")], b"0"),
    (&[S(4, 15), At(b"v")], b"0"),
    (&[U(1, 0), At(b"b")], b"1"),
    (&[U(2, 0), At(b"u")], b"1"),
    (&[U(2, 3), At(b"u")], b"0"),
    (&[U(3, 4), At(b"w")], b"1"),
    (&[U(2, 3), At(b"w")], b"0"),
    // {b, a} is 2 or 3, {a, b} is 1 or 3, {c, a} is 0 or 1
    (&[Name(b"b"), Name(b"a"), Join(2), At(b"v")], b"X"),
    (&[Name(b"a"), Name(b"b"), Join(2), At(b"v")], b"X"),
    (&[Name(b"c"), Name(b"a"), Join(2), At(b"v")], b"X"),
    (&[Name(b"b"), Name(b"a"), Join(2), At(b"u")], b"0"),
    (&[Name(b"b"), Name(b"a"), Join(2), At(b"w")], b"0"),
    // constants on both sides
    (&[U(3, 5), U(3, 4), Slice(b"w", Fixed)], b"11"),
    (&[U(3, 7), U(3, 5), Slice(b"w", Fixed)], b"001"),
    (&[U(2, 0), U(2, 1), Slice(b"u", Fixed)], b"10"),
    (&[U(2, 1), U(2, 3), Slice(b"u", Fixed)], b"000"),
    (&[U(2, 2), U(2, 1), Slice(b"s", Fixed)], b"10"),
    // from an index up or down, which may reach past the range
    (&[U(3, 5), U(2, 2), Slice(b"w", Up)], b"01"),
    (&[U(3, 6), U(2, 2), Slice(b"w", Down)], b"01"),
    (&[U(2, 3), U(2, 2), Slice(b"w", Up)], b"10"),
    (&[U(4, 8), U(2, 2), Slice(b"w", Down)], b"00"),
    (&[U(2, 0), U(2, 2), Slice(b"u", Up)], b"10"),
    (&[U(2, 1), U(2, 2), Slice(b"u", Down)], b"10"),
    // a signed index may start below 0, one without a sign can't
    (&[S(3, 7), U(2, 2), Slice(b"v", Up)], b"00"),
    (&[S(2, 3), U(3, 3), Slice(b"v", Up)], b"100"),
    (&[Name(b"a"), U(2, 2), Slice(b"v", Up)], b"XX"),
];

#[test]
fn selects_go_by_the_range(rt: HostRuntime) -> Result<(), Fail> {
    match first_wrong(rt.alloc(), &ROWS)? {
        Some(_) => Err(Fail::new("a row has another word")),
        None => Ok(()),
    }
}
