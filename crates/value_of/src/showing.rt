//! Values as they are written.
ghost use Rattle.std.specs.Prelude.{◌≡◌, ◌++◌, ℕ, List, map, reverse, IfOk, OnOk};
ghost use Rattle.vlog_const.specs.Names.{no_values};
ghost use Rattle.vlog_const.specs.Constants.{value_within};
ghost use Rattle.design_form.specs.Bits.{bits, low_bit};
ghost use Rattle.design_form.specs.State.{seen_in};
ghost use Rattle.design_form.specs.Values.{word_within};
ghost use Rattle.value_of.specs.Shown.{constant_digits, digit, digits, line_of};

use design_form::{Design, eval_within};
use rdc_tern::Tern;
use std::alloc::{AllocError, Global};
use vlog_const::{ConstFault, Env, value_within};
use vlog_tree::Expr;

/// The digit of a value.
fn digit(value: Tern) -> u8
    ensures { result ≡ digit value }
{
    match value {
        Tern::Zero => b'0',
        Tern::One => b'1',
        Tern::Unsettled => b'x',
    }
}

/// The digits of a word, least significant bit first.
fn rising(alloc: Global, word: &[Tern]) -> Result<Vec<u8>, AllocError>
    ensures { IfOk result (λ text. text.items ≡ map digit word.now) }
{
    let mut text = Vec::new(alloc);
    for value in word {
        text.push(digit(*value))?;
    }
    Ok(text)
}

/// A word, most significant bit first.
fn digits(alloc: Global, word: &[Tern]) -> Result<Vec<u8>, AllocError>
    ensures { IfOk result (λ text. text.items ≡ digits word.now) }
{
    let mut falling = rising(alloc, word)?;
    falling.reverse();
    let mut text = Vec::from_slice(alloc, b"'b")?;
    text.extend_from_slice(&falling)?;
    Ok(text)
}

/// The lowest bit of a number.
fn low_bit(number: u128) -> Tern
    ensures { result ≡ low_bit number }
{
    if number % 2 == 1 {
        Tern::One
    } else {
        Tern::Zero
    }
}

/// The bits of a constant, least significant first.
fn bits_of(alloc: Global, width: u32, number: u128) -> Result<Vec<Tern>, AllocError>
    ensures { IfOk result (λ w. w.items ≡ bits width number) }
{
    let mut word = Vec::new(alloc);
    let mut left = number;
    for place in 0..width {
        word.push(low_bit(left))?;
        left /= 2;
    }
    Ok(word)
}

/// The value as a constant, or `-` where there is none.
#[tactic(auto, unfolding(crate::specs::Shown::constant_digits))]
fn constant(alloc: Global, width: u32, e: &Expr) -> Result<Vec<u8>, AllocError>
    ensures { IfOk result (λ text. text.items ≡ constant_digits (value_within no_values width e.now)) }
{
    match value_within(alloc, e, &Env::new(alloc), width) {
        Ok(value) => digits(alloc, &bits_of(alloc, value.width, value.bits)?),
        Err(ConstFault::Memory) => Err(AllocError),
        Err(_) => Vec::from_slice(alloc, b"-"),
    }
}

/// The line of an expression: its value as a constant, and its value in a state, both as assigned to so many bits.
pub(crate) fn answer(
    alloc: Global,
    design: &Design,
    state: &[Tern],
    width: u32,
    e: &Expr,
) -> Result<Vec<u8>, AllocError>
    ensures { IfOk result (λ text. text.items ≡ line_of (value_within no_values width e.now) (word_within (seen_in design.now state.now) width e.now)) }
{
    let mut text = constant(alloc, width, e)?;
    let Ok(word) = eval_within(alloc, design, e, state, width as usize) else {
        return Err(AllocError);
    };
    text.extend_from_slice(b" ")?;
    text.extend_from_slice(&digits(alloc, &word)?)?;
    text.extend_from_slice(b"\n")?;
    Ok(text)
}
