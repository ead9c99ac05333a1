//! Sums, differences and products of words, least significant bit first.
ghost use Rattle.std.specs.Prelude.{◌≡◌, length, map, IfOk};
ghost use Rattle.rdc_tern.specs.Kleene.{xor_of};
ghost use Rattle.rdc_tern.specs.Shifts.{raised};
ghost use Rattle.rdc_tern.specs.Words.{masked, sum_bit, carry_of, sum_of, add_of, sub_of, neg_of, products_of, mul_of};

use crate::value::Tern;
use std::alloc::{AllocError, Global};

/// Why an operation on words gives up.
#[derive(Clone, Copy, Debug, PartialEq, Eq)]
pub enum WordFault {
    /// No memory for the result.
    Memory,
}

impl From<AllocError> for WordFault {
    fn from(_: AllocError) -> WordFault {
        WordFault::Memory
    }
}

/// `a + b`, cut to their width.
pub fn add(alloc: Global, a: &[Tern], b: &[Tern]) -> Result<Vec<Tern>, WordFault>
    requires { length a.now ≡ length b.now }
    ensures { IfOk result (λ w. w.items ≡ add_of a.now b.now) }
{
    let mut sum = Vec::from_slice(alloc, a)?;
    add_word(&mut sum, b, Tern::Zero);
    Ok(sum)
}

/// `a - b`, cut to their width: `a + ~b` with a first carry of 1.
pub fn sub(alloc: Global, a: &[Tern], b: &[Tern]) -> Result<Vec<Tern>, WordFault>
    requires { length a.now ≡ length b.now }
    ensures { IfOk result (λ w. w.items ≡ sub_of a.now b.now) }
{
    let mut difference = Vec::from_slice(alloc, a)?;
    add_word(&mut difference, b, Tern::One);
    Ok(difference)
}

/// `-a`: `0 - a`.
pub fn neg(alloc: Global, a: &[Tern]) -> Result<Vec<Tern>, WordFault>
    ensures { IfOk result (λ w. w.items ≡ neg_of a.now) }
{
    let mut negated = vec![in alloc; Tern::Zero; a.len()]?;
    add_word(&mut negated, a, Tern::One);
    Ok(negated)
}

/// `a * b`, cut to their width.
pub fn mul(alloc: Global, a: &[Tern], b: &[Tern]) -> Result<Vec<Tern>, WordFault>
    requires { length a.now ≡ length b.now }
    ensures { IfOk result (λ w. w.items ≡ mul_of a.now b.now) }
{
    let mut product = vec![in alloc; Tern::Zero; a.len()]?;
    add_rows(&mut product, a, b);
    Ok(product)
}

/// Adds a word, or subtracts it: at 1 `minus` inverts its bits and is the first carry.
fn add_word(sum: &mut [Tern], other: &[Tern], minus: Tern)
    requires { length sum.old ≡ length other.now }
    ensures { sum.new ≡ sum_of minus sum.old (map (xor_of minus) other.now) }
{
    let mut carry = minus;
    for i in 0..other.len() {
        (sum[i], carry) = full_adder(carry, sum[i], minus.xor(other[i]));
    }
}

/// Adds the first word once for each bit of the second, moved up by the bit's number.
fn add_rows(sum: &mut [Tern], a: &[Tern], b: &[Tern])
    requires { length sum.old ≡ length a.now }
    ensures { sum.new ≡ products_of sum.old a.now 0 b.now }
{
    for i in 0..b.len() {
        add_row(sum, a, i, b[i]);
    }
}

/// Adds a word that is moved up by `places`, each bit AND `bit`.
fn add_row(sum: &mut [Tern], word: &[Tern], places: usize, bit: Tern)
    requires { length sum.old ≡ length word.now }
    ensures { sum.new ≡ add_of sum.old (masked bit (raised Tern.Zero places word.now)) }
{
    let mut carry = Tern::Zero;
    for i in places..word.len() {
        (sum[i], carry) = full_adder(carry, sum[i], word[i - places].and(bit));
    }
}

/// A bit of a sum, and the carry out of it.
#[inline]
fn full_adder(carry: Tern, a: Tern, b: Tern) -> (Tern, Tern)
    ensures bit { result.0 ≡ sum_bit carry a b }
    ensures carry { result.1 ≡ carry_of carry a b }
{
    let half = a.xor(b);
    (half.xor(carry), a.and(b).or(carry.and(half)))
}
