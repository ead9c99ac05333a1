//! The words of a line, and the numbers and literals that they say.
ghost use Rattle.std.specs.Prelude.{◌≡◌, ℕ, ◌+◌, ◌-◌, ◌^◌, ◌<◌, ◌≤◌, min, pos, ◌∷◌, [], length, MatchOption, OnSome, IfSome, IsTrue};
ghost use Rattle.std.specs.Option.{option_map, option_copied};
ghost use Rattle.sat_chain.specs.Text.{words, is_byte, leads, number_of, variable_up_to, signed, is_plain, magnitude, literal_of};
ghost use Rattle.sat_chain.specs.Scan.{words_after, capped, digits_of};

/// The first word of a text, and the text after the space behind it.
pub fn first_word(text: &[u8]) -> (&[u8], Option<&[u8]>)
    ensures words { words text.now ≡ result.0.now ∷ words_after (option_copied result.1) }
    ensures len { MatchOption result.1 (length result.0.now ≡ length text.now) (λ rest. length result.0.now + 1 + length rest.now ≡ length text.now) }
{
    for (i, b) in text.iter().enumerate() {
        if *b == b' ' {
            let (word, _) = text.split_at(i);
            let (_, rest) = text.split_at(i + 1);
            return (word, Some(rest));
        }
    }
    (text, None)
}

/// Whether a word is one byte.
pub fn is_one(word: &[u8], byte: u8) -> bool
    ensures value { result ≡ is_byte byte word.now }
    ensures len { IsTrue result → length word.now ≡ 1 }
{
    match word {
        [b] => *b == byte,
        _ => false,
    }
}

/// Whether a word has no leading zero.
fn leads_well(word: &[u8]) -> bool
    ensures { result ≡ leads word.now }
{
    match word {
        [] => false,
        [_] => true,
        [b, ..] => *b != b'0',
    }
}

/// The number that a word says; a larger one is told as the largest u64.
pub fn number(word: &[u8]) -> Option<u64>
    ensures value { result ≡ option_map capped (number_of word.now) }
    ensures spelled { OnSome result (0 < length word.now) }
{
    if leads_well(word) { digits(word) } else { None }
}

/// The number of digits.
fn digits(word: &[u8]) -> Option<u64>
    ensures { result ≡ digits_of word.now }
{
    let mut n: u64 = 0;
    for b in word {
        if *b < b'0' || *b > b'9' {
            return None;
        }
        n = n.saturating_mul(10).saturating_add(u64::from(*b - b'0'));
    }
    Some(n)
}

/// The literal of a sign and a variable.
fn signed_literal(positive: bool, variable: u32) -> i32
    requires { variable < 2 ^ 31 }
    ensures { result ≡ signed positive variable }
{
    let literal = variable as i32;
    if positive { literal } else { -literal }
}

/// The variable that a word says, if it is from 1 to their count.
fn variable(word: &[u8], vars: u32) -> Option<u32>
    ensures value { result ≡ variable_up_to vars (number_of word.now) }
    ensures within { IfSome result (λ n. n ≤ vars) }
    ensures spelled { OnSome result (0 < length word.now) }
{
    match number(word) {
        Some(n) if n > 0 && n <= u64::from(vars) => Some(n as u32),
        _ => None,
    }
}

/// Whether a literal is positive, and the word of its variable.
fn sign(word: &[u8]) -> (bool, &[u8])
    ensures sign { result.0 ≡ is_plain word.now }
    ensures variable { result.1.now ≡ magnitude word.now }
    ensures within { length result.1.now ≤ length word.now }
{
    match word {
        [b'-', digits @ ..] => (false, digits),
        _ => (true, word),
    }
}

/// The literal that a word says, if its variable is from 1 to their count.
pub fn literal(word: &[u8], vars: u32) -> Option<i32>
    requires { vars < 2 ^ 31 }
    ensures value { result ≡ literal_of vars word.now }
    ensures spelled { OnSome result (0 < length word.now) }
{
    let (positive, digits) = sign(word);
    match variable(digits, vars) {
        Some(n) => Some(signed_literal(positive, n)),
        None => None,
    }
}
