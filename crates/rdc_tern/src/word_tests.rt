//! Operations on words by hand. Words are written as in Verilog, most significant bit first.
use super::*;
use Tern::{One, Unsettled, Zero};
use std::alloc::{AllocError, Global};
use std::test::Fail;

#[derive(Clone, Copy, Debug)]
enum Operation {
    Add,
    Sub,
    Neg,
    Mul,
    Shl,
    Shr,
    Sar,
    Eq,
    Lt,
    LtSigned,
    Any,
    All,
    Parity,
}

use Operation::{Add, All, Any, Eq, Lt, LtSigned, Mul, Neg, Parity, Sar, Shl, Shr, Sub};

const ROWS: [(Operation, &str, &str, &str); 79] = [
    // Carries run, and the last one is cut off.
    (Add, "0011", "0001", "0100"),
    (Add, "0111", "0001", "1000"),
    (Add, "1111", "0001", "0000"),
    (Add, "1", "1", "0"),
    (Add, "", "", ""),
    // An X makes carries X up to the next two zeros.
    (Add, "0010", "000x", "001x"),
    (Add, "0001", "000x", "00xx"),
    (Add, "01x1", "0001", "xxx0"),
    // Two ones of three make no carry of 1 where the third bit is X in the exclusive or.
    (Add, "0011", "00x1", "0xx0"),
    (Sub, "0101", "0011", "0010"),
    (Sub, "0000", "0001", "1111"),
    (Sub, "0110", "0110", "0000"),
    (Sub, "000x", "000x", "xxxx"),
    (Sub, "1x00", "0001", "xx11"),
    (Sub, "", "", ""),
    (Neg, "0001", "", "1111"),
    (Neg, "0110", "", "1010"),
    (Neg, "1000", "", "1000"),
    (Neg, "0000", "", "0000"),
    (Neg, "00x0", "", "xxx0"),
    (Neg, "1", "", "1"),
    (Neg, "", "", ""),
    (Mul, "0011", "0101", "1111"),
    (Mul, "1111", "1111", "0001"),
    (Mul, "0110", "0011", "0010"),
    (Mul, "xxxx", "0000", "0000"),
    (Mul, "0001", "000x", "000x"),
    (Mul, "0011", "00x1", "xxx1"),
    (Mul, "1", "1", "1"),
    (Mul, "", "", ""),
    (Shl, "0011", "01", "0110"),
    (Shl, "0011", "11", "1000"),
    (Shl, "0011", "100", "0000"),
    (
        Shl,
        "1111",
        "1000000000000000000000000000000000000000000000000000000000000000000000",
        "0000",
    ),
    (Shl, "0001", "x", "00xx"),
    (Shl, "1111", "x", "xxxx"),
    (Shl, "0001", "1x", "xx00"),
    (Shl, "0011", "", "0011"),
    (Shl, "", "101", ""),
    (Shr, "1100", "01", "0110"),
    (Shr, "1000", "11", "0001"),
    (Shr, "1000", "100", "0000"),
    (Shr, "1000", "x0", "x0x0"),
    (Shr, "", "1", ""),
    // The sign comes in from the top, also where it is X.
    (Sar, "1000", "01", "1100"),
    (Sar, "0100", "01", "0010"),
    (Sar, "1000", "11", "1111"),
    (Sar, "1000", "100", "1111"),
    (Sar, "x000", "10", "xxx0"),
    (Sar, "1000", "x", "xx00"),
    (Sar, "1", "1", "1"),
    (Eq, "01", "01", "1"),
    (Eq, "01", "11", "0"),
    (Eq, "0x", "1x", "0"),
    (Eq, "0x", "0x", "x"),
    (Eq, "", "", "1"),
    (Lt, "0011", "0100", "1"),
    (Lt, "0100", "0011", "0"),
    (Lt, "0100", "0100", "0"),
    (Lt, "1000", "0111", "0"),
    (Lt, "0x", "10", "1"),
    (Lt, "x0", "x1", "x"),
    (Lt, "1x", "01", "0"),
    (Lt, "", "", "0"),
    (LtSigned, "1000", "0111", "1"),
    (LtSigned, "0111", "1000", "0"),
    (LtSigned, "1110", "1111", "1"),
    (LtSigned, "1", "0", "1"),
    (LtSigned, "x000", "0000", "x"),
    (Any, "0000", "", "0"),
    (Any, "00x0", "", "x"),
    (Any, "01x0", "", "1"),
    (Any, "", "", "0"),
    (All, "1111", "", "1"),
    (All, "0x11", "", "0"),
    (All, "", "", "1"),
    (Parity, "0111", "", "1"),
    (Parity, "x111", "", "x"),
    (Parity, "", "", "0"),
];

const WIDE_ONE: &str = "00000000000000000000000000000000000000000000000000000000000000001";

const WIDE_TOP: &str = "10000000000000000000000000000000000000000000000000000000000000000";

const WIDE_MOST: &str = "11111111111111111111111111111111111111111111111111111111111111111";

const WIDE_ROWS: [(Operation, &str, &str, &str); 9] = [
    (
        Add,
        "01111111111111111111111111111111111111111111111111111111111111111",
        WIDE_ONE,
        WIDE_TOP,
    ),
    (Neg, WIDE_ONE, "", WIDE_MOST),
    (Mul, WIDE_MOST, WIDE_MOST, WIDE_ONE),
    (Shl, WIDE_ONE, "1000000", WIDE_TOP),
    (Shr, WIDE_TOP, "1000000", WIDE_ONE),
    (Sar, WIDE_TOP, "1000000", WIDE_MOST),
    (Lt, WIDE_MOST, WIDE_TOP, "0"),
    (LtSigned, WIDE_TOP, WIDE_MOST, "1"),
    (All, WIDE_MOST, "", "1"),
];

/// A word, from its last digit on.
fn word(alloc: Global, digits: &str) -> Result<Vec<Tern>, AllocError> {
    let mut word = Vec::new(alloc);
    for digit in digits.as_bytes().iter().rev() {
        let bit = match *digit {
            b'0' => Zero,
            b'1' => One,
            _ => Unsettled,
        };
        word.push(bit)?;
    }
    Ok(word)
}

/// A word of one bit.
fn single(alloc: Global, bit: Tern) -> Result<Vec<Tern>, WordFault> {
    Ok(Vec::from_slice(alloc, &[bit])?)
}

/// What an operation gives; nothing where its words aren't of the widths that it wants.
fn result_of(
    alloc: Global,
    operation: Operation,
    a: &[Tern],
    b: &[Tern],
) -> Result<Vec<Tern>, WordFault> {
    let same = a.len() == b.len();
    match operation {
        Add if same => add(alloc, a, b),
        Sub if same => sub(alloc, a, b),
        Neg => neg(alloc, a),
        Mul if same => mul(alloc, a, b),
        Shl => shl(alloc, a, b),
        Shr => shr(alloc, a, b),
        Sar if !a.is_empty() => sar(alloc, a, b),
        Eq if same => single(alloc, eq(a, b)),
        Lt if same => single(alloc, lt(a, b)),
        LtSigned if same && !a.is_empty() => single(alloc, lt_signed(a, b)),
        Any => single(alloc, any(a)),
        All => single(alloc, all(a)),
        Parity => single(alloc, parity(a)),
        Add | Sub | Mul | Sar | Eq | Lt | LtSigned => Ok(Vec::new(alloc)),
    }
}

#[test]
fn the_rows_are_what_the_gates_give(rt: HostRuntime) -> Result<(), Fail> {
    for (operation, a, b, wanted) in ROWS.iter().chain(WIDE_ROWS.iter()) {
        let (left, right) = (word(rt.alloc(), a)?, word(rt.alloc(), b)?);
        let found = result_of(rt.alloc(), *operation, &left, &right)?;
        let wanted = word(rt.alloc(), wanted)?;
        assert_eq!(rt;
            found.as_slice(),
            wanted.as_slice(),
            "{operation:?} {a} {b}"
        );
    }
    Ok(())
}
