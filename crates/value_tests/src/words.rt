//! Values worked by hand from the value of each form, in one state of a small design.
//!
//! A row has the steps of an expression, operands before their operator, and its word, most significant bit first.
mod arithmetic;
mod assignments;
mod numbers;
mod selects;
mod values;

use design_form::{Bounds, Design, Parts, Signal, SignalKind, eval};
use rdc_outside::{Place, Seq};
use rdc_tern::Tern;
use sqlite_items::{Boxed, Items};
use std::alloc::{AllocError, Global};
use std::test::Fail;
use vlog_tree::{Base, Binary, Expr, Name, Number, Part, Unary};

const HERE: Place = Place {
    file: 0,
    line: 1,
    col: 1,
};

/// One step of an expression.
#[derive(Clone, Copy)]
enum Step {
    /// A number without a sign: its width and its bits.
    U(u32, u128),
    /// A signed one.
    S(u32, u128),
    Name(&'static [u8]),
    Before(Unary),
    Between(Binary),
    /// `?:` of three operands.
    Choose,
    /// As many members in braces.
    Join(usize),
    /// A count and as many members.
    Copy(usize),
    /// A select of a name, by one index or by two numbers.
    At(&'static [u8]),
    Slice(&'static [u8], Part),
}

fn number(alloc: Global, width: u32, signed: bool, bits: u128) -> Result<Expr, AllocError> {
    let number = Number {
        sized: true,
        signed,
        base: Base::Decimal,
        width,
        bits,
        z: 0,
    };
    Ok(Expr::Number(HERE, Boxed::new(alloc, number)?))
}

fn named(alloc: Global, bytes: &[u8]) -> Result<Name, AllocError> {
    Name::from_slice(alloc, bytes)
}

fn top(stack: &mut Vec<Expr>) -> Result<Expr, Fail> {
    match stack.pop() {
        Some(e) => Ok(e),
        None => Err(Fail::new("a step has no operand")),
    }
}

// Some of the last expressions, in their order.
fn last(alloc: Global, stack: &mut Vec<Expr>, count: usize) -> Result<Items<Expr>, Fail> {
    let mut reversed = Vec::new(alloc);
    for _ in 0..count {
        reversed.push(top(stack)?)?;
    }
    let mut members = Items::new(alloc);
    for _ in 0..count {
        members.push(top(&mut reversed)?)?;
    }
    Ok(members)
}

fn select(alloc: Global, name: &[u8], part: Part, stack: &mut Vec<Expr>) -> Result<Expr, Fail> {
    let second = Boxed::new(alloc, top(stack)?)?;
    let first = Boxed::new(alloc, top(stack)?)?;
    Ok(Expr::Select(part, HERE, named(alloc, name)?, first, second))
}

fn between(alloc: Global, op: Binary, stack: &mut Vec<Expr>) -> Result<Expr, Fail> {
    let right = Boxed::new(alloc, top(stack)?)?;
    let left = Boxed::new(alloc, top(stack)?)?;
    Ok(Expr::Binary(HERE, op, left, right))
}

fn choose(alloc: Global, stack: &mut Vec<Expr>) -> Result<Expr, Fail> {
    let right = Boxed::new(alloc, top(stack)?)?;
    let left = Boxed::new(alloc, top(stack)?)?;
    let test = Boxed::new(alloc, top(stack)?)?;
    Ok(Expr::Conditional(HERE, test, left, right))
}

// What one step makes of the expressions so far.
fn stepped(alloc: Global, step: Step, stack: &mut Vec<Expr>) -> Result<Expr, Fail> {
    let e = match step {
        Step::U(width, bits) => number(alloc, width, false, bits)?,
        Step::S(width, bits) => number(alloc, width, true, bits)?,
        Step::Name(name) => Expr::Name(HERE, named(alloc, name)?),
        Step::Before(op) => Expr::Unary(HERE, op, Boxed::new(alloc, top(stack)?)?),
        Step::Between(op) => between(alloc, op, stack)?,
        Step::Choose => choose(alloc, stack)?,
        Step::Join(count) => Expr::Concat(HERE, last(alloc, stack, count)?),
        Step::Copy(count) => {
            let members = last(alloc, stack, count)?;
            Expr::Repeat(HERE, Boxed::new(alloc, top(stack)?)?, members)
        }
        Step::At(name) => {
            let index = Boxed::new(alloc, top(stack)?)?;
            Expr::Index(HERE, named(alloc, name)?, index)
        }
        Step::Slice(name, part) => select(alloc, name, part, stack)?,
    };
    Ok(e)
}

fn expression(alloc: Global, steps: &[Step]) -> Result<Expr, Fail> {
    let mut stack = Vec::new(alloc);
    for step in steps {
        let e = stepped(alloc, *step, &mut stack)?;
        stack.push(e)?;
    }
    top(&mut stack)
}

/// A signal: its name, whether it is signed, its range, and its word in the state, most significant bit first.
type Declared = (&'static [u8], bool, Option<Bounds>, &'static [u8]);

fn design(alloc: Global, declared: &[Declared]) -> Result<Design, Fail> {
    let mut signals = Seq::new(alloc);
    for (name, signed, range, _) in declared {
        let signal = Signal {
            name: Seq::from_vec(Vec::from_slice(alloc, *name)?),
            kind: SignalKind::Wire,
            signed: *signed,
            range: *range,
        };
        signals.push(signal)?;
    }
    let parts = Parts {
        signals,
        drivers: Seq::new(alloc),
        processes: Seq::new(alloc),
        gates: Seq::new(alloc),
        boxes: Seq::new(alloc),
        ports: Seq::new(alloc),
    };
    if !parts.is_countable() {
        return Err(Fail::new("too many bits"));
    }
    match Design::new(alloc, parts) {
        Ok(design) => Ok(design),
        Err(_) => Err(Fail::new("no memory")),
    }
}

fn value_of(digit: u8) -> Tern {
    match digit {
        b'0' => Tern::Zero,
        b'1' => Tern::One,
        _ => Tern::Unsettled,
    }
}

// Writes a signal's word into the state.
fn put(state: &mut [Tern], numbers: &[u32], word: &[u8]) {
    for (number, digit) in numbers.iter().zip(word.iter().rev()) {
        if let Some(value) = state.get_mut(*number as usize) {
            *value = value_of(*digit);
        }
    }
}

fn state(alloc: Global, design: &Design, declared: &[Declared]) -> Result<Vec<Tern>, Fail> {
    let mut state = vec![in alloc; Tern::Unsettled; design.bits() as usize]?;
    for (name, _, _, word) in declared {
        match design.bits_of(*name) {
            Some(numbers) => put(&mut state, numbers, *word),
            None => return Err(Fail::new("a name is not declared")),
        }
    }
    Ok(state)
}

fn shown(alloc: Global, word: &[Tern]) -> Result<Vec<u8>, AllocError> {
    let mut text = Vec::new(alloc);
    for value in word.iter().rev() {
        text.push(match value {
            Tern::Zero => b'0',
            Tern::One => b'1',
            Tern::Unsettled => b'X',
        })?;
    }
    Ok(text)
}

const DOWN: Option<Bounds> = Some(Bounds { msb: 3, lsb: 0 });

/// The design of the rows: `a` is X, `b` 1, `c` 0; `s` is -3, `u` counts up, `v` is 10, `w` begins at 4.
const SIGNALS: [Declared; 8] = [
    (b"a", false, None, b"X"),
    (b"b", false, None, b"1"),
    (b"c", false, Some(Bounds { msb: 0, lsb: 0 }), b"0"),
    (b"s", true, DOWN, b"1101"),
    (b"u", false, Some(Bounds { msb: 0, lsb: 3 }), b"1000"),
    (b"v", false, DOWN, b"1010"),
    (b"w", false, Some(Bounds { msb: 7, lsb: 4 }), b"0011"),
    (b"x", false, DOWN, b"1X00"),
];

/// An expression and its word.
type Row = (&'static [Step], &'static [u8]);

// The number of the first row that isn't valued as it should be.
fn first_wrong(alloc: Global, rows: &[Row]) -> Result<Option<usize>, Fail> {
    let design = design(alloc, &SIGNALS)?;
    let state = state(alloc, &design, &SIGNALS)?;
    for (number, (steps, want)) in rows.iter().enumerate() {
        let e = expression(alloc, *steps)?;
        let Ok(word) = eval(alloc, &design, &e, &state) else {
            return Err(Fail::new("no memory"));
        };
        if shown(alloc, &word)?.as_slice() != *want {
            return Ok(Some(number));
        }
    }
    Ok(None)
}
