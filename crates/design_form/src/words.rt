//! Words of numbers, words in a context, and gates bit by bit.
ghost use Rattle.std.specs.Prelude.{◌≡◌, [], ◌∷◌, ◌-◌, ◌/◌, ◌<◌, ◌^◌, length, map, nat_lt, slice_index_or, IfOk};
ghost use Rattle.rdc_tern.specs.Shifts.{select_of};
ghost use Rattle.rdc_tern.specs.Words.{inverted};
ghost use Rattle.design_form.specs.Extents.{shape_of};
ghost use Rattle.design_form.specs.Bits.{bits, copies, each, extended, fill_of, fits, low_bit};
ghost use Rattle.design_form.specs.Gates.{gate_of};

use crate::extent::Extent;
use crate::fault::EvalFault;
use rdc_tern::Tern;
use std::alloc::Global;
use vlog_tree::Binary;

/// The lowest bit of a number.
fn low_bit(number: u128) -> Tern
    ensures { result ≡ low_bit number }
{
    if number % 2 == 1 {
        Tern::One
    } else {
        Tern::Zero
    }
}

/// The lowest bits of a number.
#[tactic(auto, using(crate::proofs::WordLemmas::word_steps))]
pub(crate) fn bits(alloc: Global, width: usize, number: u128) -> Result<Vec<Tern>, EvalFault>
    ensures { IfOk result (λ w. w.items ≡ bits width number) }
{
    let mut word = Vec::new(alloc);
    let mut left = number;
    for place in 0..width {
        word.push(low_bit(left))?;
        left /= 2;
    }
    Ok(word)
}

/// What stands above a word.
#[tactic(auto, unfolding(crate::specs::Bits::fill_of))]
fn fill(signed: bool, word: &[Tern]) -> Tern
    ensures { result ≡ fill_of signed word.now }
{
    if signed && !word.is_empty() {
        word[word.len() - 1]
    } else {
        Tern::Zero
    }
}

/// A word in a context: cut, or with its top bit in each new place where that is signed, else 0.
#[tactic(auto, unfolding(crate::specs::Bits::extended))]
pub(crate) fn extended(word: Vec<Tern>, context: Extent) -> Result<Vec<Tern>, EvalFault>
    ensures { IfOk result (λ w. w.items ≡ extended (shape_of context) word.items) }
{
    let fill = fill(context.signed, &word);
    let mut extended = word;
    extended.resize(context.width, fill)?;
    Ok(extended)
}

/// One bit in a context.
pub(crate) fn one_bit(alloc: Global, bit: Tern, context: Extent) -> Result<Vec<Tern>, EvalFault>
    ensures { IfOk result (λ w. w.items ≡ extended (shape_of context) (bit ∷ [])) }
{
    let mut word = Vec::new(alloc);
    word.push(bit)?;
    extended(word, context)
}

/// `& | ^ ~^` on one bit.
#[tactic(auto, unfolding(crate::specs::Gates::gate_of))]
fn gate(op: Binary, a: Tern, b: Tern) -> Tern
    ensures { result ≡ gate_of op a b }
{
    match op {
        Binary::And => a.and(b),
        Binary::Or => a.or(b),
        Binary::Xor => a.xor(b),
        Binary::Xnor => a.xor(b).not(),
        _ => Tern::Zero,
    }
}

/// `& | ^ ~^` bit by bit.
#[tactic(auto, using(crate::proofs::WordLemmas::word_steps))]
pub(crate) fn bitwise(
    alloc: Global,
    op: Binary,
    a: &[Tern],
    b: &[Tern],
) -> Result<Vec<Tern>, EvalFault>
    requires { length a.now ≡ length b.now }
    ensures { IfOk result (λ w. w.items ≡ each (gate_of op) a.now b.now) }
{
    let mut word = Vec::new(alloc);
    for i in 0..a.len() {
        word.push(gate(op, a[i], b[i]))?;
    }
    Ok(word)
}

/// Each bit's inverse.
pub(crate) fn inverted(alloc: Global, a: &[Tern]) -> Result<Vec<Tern>, EvalFault>
    ensures { IfOk result (λ w. w.items ≡ inverted a.now) }
{
    let mut word = Vec::new(alloc);
    for bit in a {
        word.push(bit.not())?;
    }
    Ok(word)
}

/// Bit by bit the first word where the selection is 1, the second where it is 0.
#[tactic(auto, using(crate::proofs::WordLemmas::word_steps))]
pub(crate) fn chosen(
    alloc: Global,
    select: Tern,
    a: &[Tern],
    b: &[Tern],
) -> Result<Vec<Tern>, EvalFault>
    requires { length a.now ≡ length b.now }
    ensures { IfOk result (λ w. w.items ≡ select_of select a.now b.now) }
{
    let mut word = Vec::new(alloc);
    for i in 0..a.len() {
        word.push(Tern::mux(select, a[i], b[i]))?;
    }
    Ok(word)
}

/// Copies of a word, side by side.
#[tactic(auto, using(crate::proofs::WordLemmas::word_steps))]
pub(crate) fn copies(alloc: Global, count: u128, word: &[Tern]) -> Result<Vec<Tern>, EvalFault>
    ensures { IfOk result (λ w. w.items ≡ copies count word.now) }
{
    let mut all = Vec::new(alloc);
    if word.is_empty() {
        return Ok(all);
    }
    for done in 0..count {
        all.extend_from_slice(word)?;
    }
    Ok(all)
}

/// Whether a number has no more than so many bits.
#[tactic(auto, using(crate::proofs::WordLemmas::fit_steps))]
pub(crate) fn fits(number: usize, width: usize) -> bool
    ensures { result ≡ fits number width }
{
    if width < 64 {
        number < 1usize << width
    } else {
        true
    }
}
