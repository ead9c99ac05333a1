//! What a number is worth (IEEE 1364-2005, 3.5.1).

ghost use Rattle.std.specs.Prelude.{◌≡◌, ◌+◌, ◌*◌, ◌==◌, if◌then◌else◌, ◌<◌, ◌≤◌, ◌^◌, ◌%◌, true, false, MatchOption, length, drop, slice_index};
ghost use Rattle.std.specs.List.{prefix_len, list_any};
ghost use Rattle.vlog_lex.specs.Bytes.{is_blank, is_size_digit};
ghost use Rattle.vlog_lex.specs.Numbers.{value_of, with_digit, is_size};
ghost use Rattle.vlog_tree.specs.Numbers as spec;

use vlog_tree::{Base, Number};

#[tactic(auto, unfolding(vlog_lex::specs::Bytes::is_blank))]
fn is_blank(b: u8) -> bool
    ensures { result ≡ is_blank b }
{
    b == b' ' || b == b'\t' || b == b'\n' || b == 12 || b == b'\r'
}

#[tactic(auto, unfolding(vlog_lex::specs::Bytes::is_size_digit, vlog_lex::specs::Bytes::is_digit))]
fn is_size_digit(b: u8) -> bool
    ensures { result ≡ is_size_digit b }
{
    (b'0' <= b && b <= b'9') || b == b'_'
}

#[tactic(auto, unfolding(vlog_tree::specs::Numbers::is_z))]
fn is_z(d: u8) -> bool
    ensures { result ≡ spec.is_z d }
{
    d == b'z' || d == b'Z' || d == b'?'
}

#[tactic(auto, unfolding(vlog_tree::specs::Numbers::is_x))]
fn is_x(d: u8) -> bool
    ensures { result ≡ spec.is_x d }
{
    d == b'x' || d == b'X'
}

/// How many blanks stand in front.
fn blanks(bytes: &[u8]) -> usize
    ensures value { result ≡ prefix_len is_blank bytes.now }
    ensures within { result ≤ length bytes.now }
{
    bytes.iter().take_while(|b| is_blank(**b)).count()
}

/// How many digits of a size stand in front.
fn size_digits(bytes: &[u8]) -> usize
    ensures value { result ≡ prefix_len is_size_digit bytes.now }
    ensures within { result ≤ length bytes.now }
{
    bytes.iter().take_while(|b| is_size_digit(**b)).count()
}

/// The value with one more decimal digit.
#[tactic(auto, unfolding(vlog_lex::specs::Numbers::with_digit))]
fn with_digit(value: u64, d: u8) -> u64
    requires { value < 2 ^ 32 }
    ensures { result ≡ with_digit value d }
{
    if d == b'_' {
        value
    } else {
        10 * value + u64::from(d.saturating_sub(48))
    }
}

/// The value of decimal digits, if it is no more than so much.
#[tactic(auto, unfolding(vlog_lex::specs::Numbers::value_from))]
fn value_of(digits: &[u8], most: u32) -> Option<u32>
    ensures { MatchOption result (most < value_of digits.now) (λ v. (v ≡ value_of digits.now) × (v ≤ most)) }
{
    let most = u64::from(most);
    let mut value: u64 = 0;
    let mut rest = digits;
    while let [d, others @ ..] = rest {
        value = with_digit(value, *d);
        if value > most {
            return None;
        }
        rest = others;
    }
    Some(value as u32)
}

/// Decimal digits alone: a signed number of 32 bits.
#[tactic(auto, unfolding(vlog_tree::specs::Numbers::plain_in, vlog_lex::specs::Numbers::is_small))]
fn plain_in(digits: &[u8]) -> Option<Number>
    ensures { result ≡ spec.plain_in digits.now }
{
    let value = value_of(digits, u32::MAX)?;
    Some(Number {
        sized: false,
        signed: true,
        base: Base::Decimal,
        width: 32,
        bits: u128::from(value),
        z: 0,
    })
}

/// The size, or 32 where none is written.
#[tactic(auto, unfolding(vlog_tree::specs::Numbers::width_of, vlog_lex::specs::Numbers::is_size))]
fn width_of(size: &[u8]) -> Option<u32>
    ensures { MatchOption result (is_size size.now ≡ false) (λ w. (is_size size.now ≡ true) × (w ≡ spec.width_of size.now) × (1 ≤ w) × (w ≤ 128)) }
{
    match size {
        [] => Some(32),
        [_, ..] => {
            let width = value_of(size, 128)?;
            if width == 0 { None } else { Some(width) }
        }
    }
}

/// b, o, h, or else d
#[tactic(auto, unfolding(vlog_tree::specs::Numbers::base_of, vlog_lex::specs::Numbers::is_binary, vlog_lex::specs::Numbers::is_octal, vlog_lex::specs::Numbers::is_hexadecimal))]
fn base_of(letter: u8) -> Base
    ensures { result ≡ spec.base_of letter }
{
    match letter {
        b'b' | b'B' => Base::Binary,
        b'o' | b'O' => Base::Octal,
        b'h' | b'H' => Base::Hexadecimal,
        _ => Base::Decimal,
    }
}

#[tactic(auto, unfolding(vlog_tree::specs::Numbers::radix))]
fn radix(base: Base) -> u128
    ensures value { result ≡ spec.radix base }
    ensures some { (2 ≤ result) × (result ≤ 16) }
{
    match base {
        Base::Binary => 2,
        Base::Octal => 8,
        Base::Decimal => 10,
        Base::Hexadecimal => 16,
    }
}

/// A letter counts 10 to 15, and a digit x or z 0.
#[tactic(auto, unfolding(vlog_tree::specs::Numbers::digit_value, vlog_lex::specs::Bytes::is_digit))]
fn digit_value(d: u8) -> u8
    ensures { result ≡ spec.digit_value d }
{
    if b'0' <= d && d <= b'9' {
        d - b'0'
    } else if b'a' <= d && d <= b'f' {
        d - 87
    } else if b'A' <= d && d <= b'F' {
        d - 55
    } else {
        0
    }
}

/// A z digit takes all positions of a digit.
#[tactic(auto, unfolding(vlog_tree::specs::Numbers::z_value))]
fn z_value(radix: u128, d: u8) -> u128
    requires { 2 ≤ radix }
    ensures { result ≡ spec.z_value radix d }
{
    if is_z(d) { radix - 1 } else { 0 }
}

/// The 128 low bits with one more digit, which is worth so much; `_` is none.
fn with_worth(radix: u128, value: u128, d: u8, worth: u128) -> u128
    ensures { result ≡ (if d == 95 then value else radix * value + worth) % 2 ^ 128 }
{
    if d == b'_' {
        value
    } else {
        radix.wrapping_mul(value).wrapping_add(worth)
    }
}

/// The 128 low bits of what digits are worth.
fn bits_of(radix: u128, digits: &[u8]) -> u128
    ensures { result ≡ spec.counted spec.digit_value radix 0 digits.now % 2 ^ 128 }
{
    let mut value: u128 = 0;
    for d in digits {
        value = with_worth(radix, value, *d, u128::from(digit_value(*d)));
    }
    value
}

/// All positions, if the first digit is z.
#[tactic(auto, unfolding(vlog_tree::specs::Numbers::z_before, vlog_tree::specs::Numbers::is_z))]
fn z_before(digits: &[u8]) -> u128
    ensures { result ≡ spec.z_before digits.now }
{
    match digits {
        [] => 0,
        [d, ..] => { if is_z(*d) { u128::MAX } else { 0 } }
    }
}

/// The positions among 128 that z digits take, and those to their left.
fn z_of(radix: u128, digits: &[u8]) -> u128
    requires { 2 ≤ radix }
    ensures { result ≡ spec.counted (spec.z_value radix) radix (spec.z_before digits.now) digits.now % 2 ^ 128 }
{
    let mut value = z_before(digits);
    for d in digits {
        value = with_worth(radix, value, *d, z_value(radix, *d));
    }
    value
}

/// The low bits.
fn low(value: u128, width: u32) -> u128
    requires some { 1 ≤ width }
    requires most { width ≤ 128 }
    ensures { result ≡ value % 2 ^ width }
{
    if width == 128 {
        value
    } else {
        value % (1u128 << width)
    }
}

/// The bits of digits of a base, cut to the width.
fn bits(base: Base, width: u32, digits: &[u8]) -> u128
    requires some { 1 ≤ width }
    requires most { width ≤ 128 }
    ensures { result ≡ spec.counted spec.digit_value (spec.radix base) 0 digits.now % 2 ^ width }
{
    low(bits_of(radix(base), digits), width)
}

/// The positions that z digits of a base take, cut to the width.
fn z_bits(base: Base, width: u32, digits: &[u8]) -> u128
    requires some { 1 ≤ width }
    requires most { width ≤ 128 }
    ensures { result ≡ spec.counted (spec.z_value (spec.radix base)) (spec.radix base) (spec.z_before digits.now) digits.now % 2 ^ width }
{
    low(z_of(radix(base), digits), width)
}

/// The digits behind a base, cut to the width.
#[tactic(auto, unfolding(vlog_tree::specs::Numbers::worth))]
fn worth(sized: bool, signed: bool, base: Base, width: u32, digits: &[u8]) -> Number
    requires some { 1 ≤ width }
    requires most { width ≤ 128 }
    ensures { result ≡ spec.worth sized signed base width digits.now }
{
    Number {
        sized,
        signed,
        base,
        width,
        bits: bits(base, width, digits),
        z: z_bits(base, width, digits),
    }
}

/// What stands behind the size and the sign: a base, blanks, digits.
#[tactic(auto, unfolding(vlog_tree::specs::Numbers::worth))]
fn digits_behind(sized: bool, signed: bool, width: u32, text: &[u8]) -> Number
    requires some { 1 ≤ width }
    requires most { width ≤ 128 }
    ensures { result ≡ spec.worth sized signed (spec.base_of (slice_index text.now 0)) width (drop (prefix_len is_blank (drop 1 text.now)) (drop 1 text.now)) }
{
    let (letter, behind) = match text {
        [] => (0, text),
        [b, behind @ ..] => (*b, behind),
    };
    let (_, digits) = behind.split_at(blanks(behind));
    worth(sized, signed, base_of(letter), width, digits)
}

/// What stands behind the size and the `'`: a sign or none, and so on.
#[tactic(auto, unfolding(vlog_tree::specs::Numbers::based_in, vlog_tree::specs::Numbers::digits_behind, vlog_tree::specs::Numbers::is_sized, vlog_tree::specs::Numbers::is_sign))]
fn based_in(size: &[u8], text: &[u8]) -> Option<Number>
    ensures { result ≡ spec.based_in size.now text.now }
{
    let width = width_of(size)?;
    let sized = !size.is_empty();
    match text {
        [b's' | b'S', behind @ ..] => Some(digits_behind(sized, true, width, behind)),
        _ => Some(digits_behind(sized, false, width, text)),
    }
}

/// The number that a text is.
#[tactic(auto, unfolding(vlog_tree::specs::Numbers::number_in))]
fn number_in(text: &[u8]) -> Option<Number>
    ensures { result ≡ spec.number_in text.now }
{
    let (size, behind) = text.split_at(size_digits(text));
    let (_, rest) = behind.split_at(blanks(behind));
    match rest {
        [b'\'', based @ ..] => based_in(size, based),
        _ => plain_in(size),
    }
}

/// An x digit stands in the text.
pub(crate) fn has_x(text: &[u8]) -> bool
    ensures { result ≡ list_any spec.is_x text.now }
{
    text.iter().any(|d| is_x(*d))
}

/// A z digit stands in the text.
pub(crate) fn has_z(text: &[u8]) -> bool
    ensures { result ≡ list_any spec.is_z text.now }
{
    text.iter().any(|d| is_z(*d))
}

/// The number that a text is, if it has no x digit.
#[tactic(auto, unfolding(vlog_tree::specs::Numbers::settled_in))]
pub(crate) fn settled_in(text: &[u8]) -> Option<Number>
    ensures { result ≡ spec.settled_in text.now }
{
    match text {
        [] => None,
        [_, ..] => { if has_x(text) { None } else { number_in(text) } }
    }
}
