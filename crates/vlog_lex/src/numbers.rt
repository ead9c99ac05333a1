//! Numbers: how many bytes the one in front takes.
ghost use Rattle.std.specs.Prelude.{◌≡◌, ℕ, ◌+◌, ◌*◌, ◌^◌, ◌<◌, ◌≤◌, nat_le, length, IfSome};
ghost use Rattle.std.specs.List.{prefix_len, list_all};
ghost use Rattle.vlog_lex.specs.Numbers.{with_digit, value_of, is_size, is_small, is_base, is_binary, is_octal, is_decimal, is_hexadecimal, is_unknown, is_hex_letter, goes_on, is_digit_of, are_digits_of, digits_at, based_at, number_at};

use crate::bytes::{blanks, byte_at, size_digit, size_digits};

/// The value with one more decimal digit.
#[tactic(auto, unfolding(crate::specs::Numbers::with_digit))]
fn with_digit(value: u64, d: u8) -> u64
    requires { value < 2 ^ 32 }
    ensures { result ≡ with_digit value d }
{
    if d == b'_' {
        value
    } else {
        10 * value + u64::from(d.saturating_sub(48))
    }
}

/// Whether decimal digits are worth no more than so much.
#[tactic(auto, unfolding(crate::specs::Numbers::value_from))]
fn is_at_most(digits: &[u8], most: u32) -> bool
    ensures { result ≡ nat_le (value_of digits.now) most }
{
    let most = u64::from(most);
    let mut value: u64 = 0;
    let mut rest = digits;
    while let [d, others @ ..] = rest {
        value = with_digit(value, *d);
        if value > most {
            return false;
        }
        rest = others;
    }
    true
}

#[tactic(auto, unfolding(crate::specs::Numbers::is_size))]
fn is_size(digits: &[u8]) -> bool
    ensures { result ≡ is_size digits.now }
{
    match digits {
        [] => true,
        [_, ..] => is_at_most(digits, 128) && !is_at_most(digits, 0),
    }
}

#[tactic(auto, unfolding(crate::specs::Numbers::is_small))]
fn is_small(digits: &[u8]) -> bool
    ensures { result ≡ is_small digits.now }
{
    is_at_most(digits, 4294967295)
}

#[tactic(auto, unfolding(crate::specs::Numbers::is_binary))]
fn is_binary(b: u8) -> bool
    ensures { result ≡ is_binary b }
{
    b == b'b' || b == b'B'
}

#[tactic(auto, unfolding(crate::specs::Numbers::is_octal))]
fn is_octal(b: u8) -> bool
    ensures { result ≡ is_octal b }
{
    b == b'o' || b == b'O'
}

#[tactic(auto, unfolding(crate::specs::Numbers::is_decimal))]
fn is_decimal(b: u8) -> bool
    ensures { result ≡ is_decimal b }
{
    b == b'd' || b == b'D'
}

#[tactic(auto, unfolding(crate::specs::Numbers::is_hexadecimal))]
fn is_hexadecimal(b: u8) -> bool
    ensures { result ≡ is_hexadecimal b }
{
    b == b'h' || b == b'H'
}

#[tactic(auto, unfolding(crate::specs::Numbers::is_base))]
fn is_base(b: u8) -> bool
    ensures { result ≡ is_base b }
{
    is_binary(b) || is_octal(b) || is_decimal(b) || is_hexadecimal(b)
}

#[tactic(auto, unfolding(crate::specs::Numbers::is_unknown))]
fn is_unknown(d: u8) -> bool
    ensures { result ≡ is_unknown d }
{
    d == b'x' || d == b'X' || d == b'z' || d == b'Z' || d == b'?'
}

#[tactic(auto, unfolding(crate::specs::Numbers::is_hex_letter))]
fn is_hex_letter(d: u8) -> bool
    ensures { result ≡ is_hex_letter d }
{
    (b'a' <= d && d <= b'f') || (b'A' <= d && d <= b'F')
}

#[tactic(auto, unfolding(crate::specs::Numbers::goes_on))]
fn goes_on(base: u8, d: u8) -> bool
    ensures { result ≡ goes_on base d }
{
    size_digit(d) || is_unknown(d) || (is_hexadecimal(base) && is_hex_letter(d))
}

#[tactic(auto, unfolding(crate::specs::Numbers::is_digit_of))]
fn is_digit_of(base: u8, d: u8) -> bool
    ensures { result ≡ is_digit_of base d }
{
    if is_binary(base) {
        (b'0' <= d && d <= b'1') || d == b'_' || is_unknown(d)
    } else if is_octal(base) {
        (b'0' <= d && d <= b'7') || d == b'_' || is_unknown(d)
    } else if is_decimal(base) {
        size_digit(d)
    } else {
        true
    }
}

/// How many bytes in front go on with a number of this base.
fn digit_bytes(base: u8, bytes: &[u8]) -> usize
    ensures value { result ≡ prefix_len (goes_on base) bytes.now }
    ensures within { result ≤ length bytes.now }
{
    bytes.iter().take_while(|d| goes_on(base, **d)).count()
}

fn all_of_base(base: u8, digits: &[u8]) -> bool
    ensures { result ≡ list_all (is_digit_of base) digits.now }
{
    digits.iter().all(|d| is_digit_of(base, *d))
}

#[tactic(auto, unfolding(crate::specs::Numbers::are_digits_of))]
fn are_digits(base: u8, digits: &[u8]) -> bool
    ensures { result ≡ are_digits_of base digits.now }
{
    match digits {
        [] => false,
        [d, ..] => *d != b'_' && all_of_base(base, digits),
    }
}

/// The length of a base, blanks and digits.
#[tactic(auto, unfolding(crate::specs::Numbers::digits_at))]
fn digits_len(bytes: &[u8]) -> Option<usize>
    ensures value { result ≡ digits_at bytes.now }
    ensures within { IfSome result (λ n. n ≤ length bytes.now) }
{
    match bytes {
        [] => None,
        [base, behind @ ..] => {
            let space = blanks(behind);
            let (_, rest) = behind.split_at(space);
            let count = digit_bytes(*base, rest);
            let (digits, _) = rest.split_at(count);
            if is_base(*base) && are_digits(*base, digits) {
                Some(1 + space + count)
            } else {
                None
            }
        }
    }
}

/// The length of what stands behind the `'`.
#[tactic(auto, unfolding(crate::specs::Numbers::based_at))]
fn based_len(bytes: &[u8]) -> Option<usize>
    ensures value { result ≡ based_at bytes.now }
    ensures within { IfSome result (λ n. n ≤ length bytes.now) }
{
    match bytes {
        [] => None,
        [b, behind @ ..] => {
            if *b == b's' || *b == b'S' {
                match digits_len(behind) {
                    None => None,
                    Some(n) => Some(1 + n),
                }
            } else {
                digits_len(bytes)
            }
        }
    }
}

/// The length of the number in front, if it is one.
#[tactic(auto, unfolding(crate::specs::Numbers::number_at))]
pub(crate) fn number_len(bytes: &[u8]) -> Option<usize>
    ensures value { result ≡ number_at bytes.now }
    ensures within { IfSome result (λ n. (0 < n) × (n ≤ length bytes.now)) }
{
    let size = size_digits(bytes);
    let (digits, behind) = bytes.split_at(size);
    let space = blanks(behind);
    let (_, rest) = behind.split_at(space);
    match rest {
        [b'\'', based @ ..] => {
            if is_size(digits) {
                match based_len(based) {
                    None => None,
                    Some(n) => Some(size + space + 1 + n),
                }
            } else {
                None
            }
        }
        _ => {
            if size != 0 && is_small(digits) {
                Some(size)
            } else {
                None
            }
        }
    }
}
