//! Constants worked by hand from IEEE 1364-2005, clause 5.
//!
//! A row has the steps of an expression, operands before their operator, and what it gives: its width, `u` or `s`, and
//! its bits, or its fault. The place of a leaf or of what begins with an operator or a brace is the number of its step.
mod faults;
mod operators;
mod widths;

use rdc_outside::Place;
use sqlite_items::{Boxed, Items};
use std::alloc::{AllocError, Global};
use std::test::Fail;
use vlog_const::{ConstFault, ConstValue, Env, value, value_within};
use vlog_tree::{Base, Binary, Expr, Name, Number, Part, Unary};

/// One step of an expression.
#[derive(Clone, Copy)]
enum Step {
    /// A number without a sign: its width and its bits.
    U(u32, u128),
    /// A signed one.
    S(u32, u128),
    Name(&'static [u8]),
    Before(Unary),
    Between(Binary),
    /// `?:` of three operands.
    Choose,
    /// As many members in braces.
    Join(usize),
    /// A count and as many members.
    Copy(usize),
    /// A select of a name, by one index or by two numbers.
    At(&'static [u8]),
    Slice(&'static [u8], Part),
}

fn place_of(e: &Expr) -> Place {
    match e {
        Expr::Number(place, _)
        | Expr::Name(place, _)
        | Expr::Index(place, _, _)
        | Expr::Select(_, place, _, _, _)
        | Expr::Brackets(place, _)
        | Expr::Concat(place, _)
        | Expr::Repeat(place, _, _)
        | Expr::Unary(place, _, _)
        | Expr::Binary(place, _, _, _)
        | Expr::Conditional(place, _, _, _) => *place,
    }
}

fn number(
    alloc: Global,
    place: Place,
    width: u32,
    signed: bool,
    bits: u128,
) -> Result<Expr, AllocError> {
    let number = Number {
        sized: true,
        signed,
        base: Base::Decimal,
        width,
        bits,
        z: 0,
    };
    Ok(Expr::Number(place, Boxed::new(alloc, number)?))
}

fn named(alloc: Global, bytes: &[u8]) -> Result<Name, AllocError> {
    Name::from_slice(alloc, bytes)
}

fn top(stack: &mut Vec<Expr>) -> Result<Expr, Fail> {
    match stack.pop() {
        Some(e) => Ok(e),
        None => Err(Fail::new("a step has no operand")),
    }
}

// Some of the last expressions, in their order.
fn last(alloc: Global, stack: &mut Vec<Expr>, count: usize) -> Result<Items<Expr>, Fail> {
    let mut reversed = Vec::new(alloc);
    for _ in 0..count {
        reversed.push(top(stack)?)?;
    }
    let mut members = Items::new(alloc);
    for _ in 0..count {
        members.push(top(&mut reversed)?)?;
    }
    Ok(members)
}

fn select(
    alloc: Global,
    place: Place,
    name: &[u8],
    part: Part,
    stack: &mut Vec<Expr>,
) -> Result<Expr, Fail> {
    let second = Boxed::new(alloc, top(stack)?)?;
    let first = Boxed::new(alloc, top(stack)?)?;
    Ok(Expr::Select(part, place, named(alloc, name)?, first, second))
}

fn between(alloc: Global, op: Binary, stack: &mut Vec<Expr>) -> Result<Expr, Fail> {
    let right = top(stack)?;
    let left = top(stack)?;
    let place = place_of(&left);
    let left = Boxed::new(alloc, left)?;
    Ok(Expr::Binary(place, op, left, Boxed::new(alloc, right)?))
}

fn choose(alloc: Global, stack: &mut Vec<Expr>) -> Result<Expr, Fail> {
    let right = Boxed::new(alloc, top(stack)?)?;
    let left = Boxed::new(alloc, top(stack)?)?;
    let test = top(stack)?;
    let place = place_of(&test);
    Ok(Expr::Conditional(place, Boxed::new(alloc, test)?, left, right))
}

// What one step makes of the expressions so far.
fn stepped(alloc: Global, place: Place, step: Step, stack: &mut Vec<Expr>) -> Result<Expr, Fail> {
    let e = match step {
        Step::U(width, bits) => number(alloc, place, width, false, bits)?,
        Step::S(width, bits) => number(alloc, place, width, true, bits)?,
        Step::Name(name) => Expr::Name(place, named(alloc, name)?),
        Step::Before(op) => Expr::Unary(place, op, Boxed::new(alloc, top(stack)?)?),
        Step::Between(op) => between(alloc, op, stack)?,
        Step::Choose => choose(alloc, stack)?,
        Step::Join(count) => Expr::Concat(place, last(alloc, stack, count)?),
        Step::Copy(count) => {
            let members = last(alloc, stack, count)?;
            Expr::Repeat(place, Boxed::new(alloc, top(stack)?)?, members)
        }
        Step::At(name) => {
            let index = Boxed::new(alloc, top(stack)?)?;
            Expr::Index(place, named(alloc, name)?, index)
        }
        Step::Slice(name, part) => select(alloc, place, name, part, stack)?,
    };
    Ok(e)
}

fn expression(alloc: Global, steps: &[Step]) -> Result<Expr, Fail> {
    let mut stack = Vec::new(alloc);
    let mut col = 0u32;
    for step in steps {
        col = col.saturating_add(1);
        let place = Place {
            file: 0,
            line: 1,
            col,
        };
        let e = stepped(alloc, place, *step, &mut stack)?;
        stack.push(e)?;
    }
    top(&mut stack)
}

// `a` is 8'ha5 without a sign, `s` 4'sd13 with one.
fn names(alloc: Global) -> Result<Env, AllocError> {
    let mut env = Env::new(alloc);
    let a = ConstValue {
        bits: 0xa5,
        width: 8,
        signed: false,
    };
    env.set(Vec::from_slice(alloc, b"a")?, a)?;
    let s = ConstValue {
        bits: 13,
        width: 4,
        signed: true,
    };
    env.set(Vec::from_slice(alloc, b"s")?, s)?;
    Ok(env)
}

fn fault_shown(alloc: Global, fault: ConstFault) -> Result<String, AllocError> {
    match fault {
        ConstFault::Memory => String::from_str(alloc, "Memory"),
        ConstFault::NotConstant(Place { col, .. }) => format!(in alloc; "NotConstant {col}"),
        ConstFault::TooWide(Place { col, .. }) => format!(in alloc; "TooWide {col}"),
        ConstFault::ZeroDivisor(Place { col, .. }) => format!(in alloc; "ZeroDivisor {col}"),
    }
}

fn shown(alloc: Global, answer: Result<ConstValue, ConstFault>) -> Result<String, AllocError> {
    match answer {
        Err(fault) => fault_shown(alloc, fault),
        Ok(
            ConstValue {
                bits,
                width,
                signed,
            },
        ) => {
            let sign = if signed { "s" } else { "u" };
            format!(in alloc; "{width}{sign}{bits}")
        }
    }
}

/// An expression and what it gives.
type Row = (&'static [Step], &'static str);

// The first row that isn't valued as it should be, with what came instead; within 0 bits it stands alone.
fn first_wrong(alloc: Global, within: u32, rows: &[Row]) -> Result<Option<String>, Fail> {
    let env = names(alloc)?;
    for (steps, want) in rows {
        let e = expression(alloc, *steps)?;
        let answer = if within == 0 {
            value(alloc, &e, &env)
        } else {
            value_within(alloc, &e, &env, within)
        };
        let got = shown(alloc, answer)?;
        if got.as_str() != *want {
            return Ok(Some(format!(in alloc; "{want} / {got}")?));
        }
    }
    Ok(None)
}
