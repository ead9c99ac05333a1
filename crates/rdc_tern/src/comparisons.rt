//! Comparisons and reductions of words, least significant bit first. None takes memory.
ghost use Rattle.std.specs.Prelude.{◌≡◌, ◌<◌, ◌≤◌, length, take};
ghost use Rattle.rdc_tern.specs.Words.{any_of, all_of, parity_of, eq_of, lt_bit, lt_from, lt_of, lt_signed_of};

use crate::value::Tern;

/// The OR of the bits, of none 0.
pub fn any(word: &[Tern]) -> Tern
    ensures { result ≡ any_of word.now }
{
    let mut found = Tern::Zero;
    for bit in word {
        found = found.or(*bit);
    }
    found
}

/// The AND of the bits, of none 1.
pub fn all(word: &[Tern]) -> Tern
    ensures { result ≡ all_of word.now }
{
    let mut found = Tern::One;
    for bit in word {
        found = found.and(*bit);
    }
    found
}

/// The XOR of the bits, of none 0.
pub fn parity(word: &[Tern]) -> Tern
    ensures { result ≡ parity_of word.now }
{
    let mut odd = Tern::Zero;
    for bit in word {
        odd = odd.xor(*bit);
    }
    odd
}

/// `a == b`. Its inverse is `a != b`.
pub fn eq(a: &[Tern], b: &[Tern]) -> Tern
    requires { length a.now ≡ length b.now }
    ensures { result ≡ eq_of a.now b.now }
{
    let mut equal = Tern::One;
    for i in 0..a.len() {
        equal = equal.and(a[i].xor(b[i]).not());
    }
    equal
}

/// `a < b` of unsigned words.
pub fn lt(a: &[Tern], b: &[Tern]) -> Tern
    requires { length a.now ≡ length b.now }
    ensures { result ≡ lt_of a.now b.now }
{
    less_below(a, b, a.len())
}

/// `a < b` of signed words.
pub fn lt_signed(a: &[Tern], b: &[Tern]) -> Tern
    requires same_width { length a.now ≡ length b.now }
    requires some { 0 < length a.now }
    ensures { result ≡ lt_signed_of a.now b.now }
{
    let top = a.len() - 1;
    less_by(less_below(a, b, top), a[top].not(), b[top].not())
}

/// Whether the bits below `end` are less.
fn less_below(a: &[Tern], b: &[Tern], end: usize) -> Tern
    requires a { end ≤ length a.now }
    requires b { end ≤ length b.now }
    ensures { result ≡ lt_of (take end a.now) (take end b.now) }
{
    let mut less = Tern::Zero;
    for i in 0..end {
        less = less_by(less, a[i], b[i]);
    }
    less
}

/// Whether a bit makes less, or leaves it to those below.
#[inline]
fn less_by(below: Tern, a: Tern, b: Tern) -> Tern
    ensures { result ≡ lt_bit below a b }
{
    a.not().and(b).or(a.xor(b).not().and(below))
}
