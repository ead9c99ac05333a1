//! Numbers modulo a power of 2, as the lowest bits of a `u128`.
ghost use Rattle.std.specs.Prelude.{◌≡◌, nat_le, ◌-◌, ◌*◌, ◌/◌, ◌^◌, ◌≤◌};
ghost use Rattle.vlog_const.specs.Words.{low, inverted, negated, is_negative, magnitude, with_sign, extended};

use crate::shape::Shape;

/// As many ones.
pub(crate) fn ones(width: u32) -> u128
    requires { width ≤ 128 }
    ensures { result ≡ 2 ^ width - 1 }
{
    if width < 128 {
        (1u128 << width) - 1
    } else {
        u128::MAX
    }
}

/// The lowest bits.
#[tactic(auto, using(crate::proofs::WordLemmas::word_steps))]
pub(crate) fn low(width: u32, a: u128) -> u128
    requires { width ≤ 128 }
    ensures { result ≡ low width a }
{
    a & ones(width)
}

/// `~a`
pub(crate) fn inverted(width: u32, a: u128) -> u128
    requires { width ≤ 128 }
    ensures { result ≡ inverted width a }
{
    ones(width).saturating_sub(a)
}

/// `-a`
#[tactic(auto, using(crate::proofs::WordLemmas::word_steps))]
pub(crate) fn negated(width: u32, a: u128) -> u128
    requires { width ≤ 128 }
    ensures { result ≡ negated width a }
{
    low(width, inverted(width, a).wrapping_add(1))
}

/// Whether the top bit of a signed number is 1.
#[tactic(auto, unfolding(crate::specs::Words::is_negative))]
pub(crate) fn is_negative(signed: bool, width: u32, a: u128) -> bool
    ensures { result ≡ is_negative signed width a }
{
    signed && reaches_top(width, a)
}

/// Whether the top bit is 1.
#[tactic(auto, using(crate::proofs::WordLemmas::word_steps))]
fn reaches_top(width: u32, a: u128) -> bool
    ensures { result ≡ nat_le (2 ^ (width - 1)) a }
{
    let place = width.saturating_sub(1);
    place < 128 && (1u128 << place) <= a
}

/// How far a number is from 0.
#[tactic(auto, unfolding(crate::specs::Words::magnitude))]
pub(crate) fn magnitude(signed: bool, width: u32, a: u128) -> u128
    requires { width ≤ 128 }
    ensures { result ≡ magnitude signed width a }
{
    if is_negative(signed, width, a) {
        negated(width, a)
    } else {
        a
    }
}

/// A number, or the one of opposite sign.
#[tactic(auto, unfolding(crate::specs::Words::with_sign))]
pub(crate) fn with_sign(negative: bool, width: u32, a: u128) -> u128
    requires { width ≤ 128 }
    ensures { result ≡ with_sign negative width a }
{
    if negative { negated(width, a) } else { a }
}

/// The bits from `width` up to `wider`.
#[tactic(auto, using(crate::proofs::WordLemmas::word_steps))]
fn fill(width: u32, wider: u32) -> u128
    requires { wider ≤ 128 }
    ensures { result ≡ 2 ^ wider - 2 ^ width }
{
    if width < wider {
        ones(wider).saturating_sub(ones(width))
    } else {
        0
    }
}

/// Bits of some width in a context.
#[tactic(auto, using(crate::proofs::WordLemmas::word_steps), unfolding(crate::specs::Words::extended))]
pub(crate) fn extended(width: u32, context: Shape, a: u128) -> u128
    requires { context.width ≤ 128 }
    ensures { result ≡ extended width context a }
{
    if is_negative(context.signed, width, a) {
        low(context.width, a.wrapping_add(fill(width, context.width)))
    } else {
        low(context.width, a)
    }
}

/// `a ** n`, by squaring.
#[tactic(auto, using(crate::proofs::WordLemmas::word_steps))]
pub(crate) fn power(width: u32, a: u128, n: u128) -> u128
    requires { width ≤ 128 }
    ensures { result ≡ low width (a ^ n) }
{
    let mut power: u128 = 1;
    let mut base = a;
    let mut left = n;
    'squares: while 0 < left {
        if left % 2 == 1 {
            power = power.wrapping_mul(base);
        }
        base = base.wrapping_mul(base);
        left /= 2;
    }
    low(width, power)
}

/// `a << n`, any number of places.
#[tactic(auto, using(crate::proofs::WordLemmas::word_steps))]
pub(crate) fn shifted_left(width: u32, a: u128, n: u128) -> u128
    requires { width ≤ 128 }
    ensures { result ≡ low width (a * 2 ^ n) }
{
    if n < 128 {
        low(width, a.wrapping_shl(n as u32))
    } else {
        0
    }
}

/// `a >> n`, any number of places.
#[tactic(auto, using(crate::proofs::WordLemmas::word_steps))]
pub(crate) fn shifted_right(a: u128, n: u128) -> u128
    ensures { result ≡ a / 2 ^ n }
{
    if n < 128 { a >> (n as u32) } else { 0 }
}
