//! Words of a line, from left to right.

ghost use Rattle.std.specs.Prelude.{◌≡◌, [], not, position, IfSome};
ghost use Rattle.std.specs.Option.{option_map};
ghost use Rattle.std.specs.Str.{IsAscii};
ghost use Rattle.cons_file.specs.Lines.{is_blank, words_in};
ghost use Rattle.cons_file.specs.Front.{with_front};
ghost use Rattle.cons_file.specs.Forms.{skip_blanks, cut_blanks, after_word};
ghost use Rattle.cons_file.specs.Reading.{word_in, given_in, last_in, choice_in};

use crate::scanner::split;

/// The place of the first blank.
fn place_of_blank(text: &[u8]) -> Option<usize>
    ensures { result ≡ position is_blank text.now }
{
    text.iter().position(|b| *b == b' ' || *b == b'\t')
}

/// The place of the first byte that is no blank.
fn place_of_word(text: &[u8]) -> Option<usize>
    ensures { result ≡ position (λ b. not (is_blank b)) text.now }
{
    text.iter().position(|b| !(*b == b' ' || *b == b'\t'))
}

/// Bytes that are ASCII as text.
fn text(bytes: &[u8]) -> &str
    requires { IsAscii bytes.now }
    ensures { result.now ≡ bytes.now }
{
    let Ok(text) = str::from_utf8(bytes) else {
        unreachable!();
    };
    text
}

/// A text from its first byte that is no blank on.
fn skipped(text: &[u8]) -> &[u8]
    ensures value { result.now ≡ skip_blanks text.now }
    ensures ascii { IsAscii text.now → IsAscii result.now }
{
    split(text, place_of_word(text)).1
}

/// Whether a byte is a blank.
fn blank(b: u8) -> bool
    ensures { result ≡ is_blank b }
{
    b == b' ' || b == b'\t'
}

/// A text without the blanks at its end.
fn cut(text: &[u8]) -> &[u8]
    ensures value { result.now ≡ cut_blanks text.now }
    ensures ascii { IsAscii text.now → IsAscii result.now }
{
    let mut end = text.len();
    while end > 0 && blank(text[end - 1]) {
        end -= 1;
    }
    text.split_at(end).0
}

/// The first word, empty where there is none, and what stands behind it.
pub(crate) fn split_word(text: &[u8]) -> (&[u8], &[u8])
    ensures words { words_in text.now ≡ with_front result.0.now (words_in result.1.now) }
    ensures none { result.0.now ≡ [] → words_in text.now ≡ [] }
    ensures rest { result.1.now ≡ after_word text.now }
    ensures word_ascii { IsAscii text.now → IsAscii result.0.now }
    ensures rest_ascii { IsAscii text.now → IsAscii result.1.now }
{
    let text = skipped(text);
    split(text, place_of_blank(text))
}

/// The first word, and what stands behind it; None where there is none.
#[tactic(auto, unfolding(crate::specs::Reading::word_in))]
pub(crate) fn word(line: &[u8]) -> Option<(&str, &[u8])>
    requires { IsAscii line.now }
    ensures word { option_map (λ r. (r.0.now, words_in r.1.now)) result ≡ word_in (words_in line.now) }
    ensures rest { IfSome result (λ r. r.1.now ≡ after_word line.now) }
    ensures ascii { IfSome result (λ r. IsAscii r.1.now) }
{
    let (first, rest) = split_word(line);
    if first.is_empty() {
        return None;
    }
    Some((text(first), rest))
}

/// What stands behind a given word.
#[tactic(auto, unfolding(crate::specs::Reading::word_in, crate::specs::Reading::given_in))]
pub(crate) fn given<'a>(given: &str, line: &'a [u8]) -> Option<&'a [u8]>
    requires { IsAscii line.now }
    ensures rest { option_map (λ r. words_in r.now) result ≡ given_in given.now (words_in line.now) }
    ensures ascii { IfSome result (λ r. IsAscii r.now) }
{
    let (first, rest) = word(line)?;
    if first == given { Some(rest) } else { None }
}

/// The one word that there is.
#[tactic(auto, unfolding(crate::specs::Reading::word_in, crate::specs::Reading::last_in))]
pub(crate) fn last(line: &[u8]) -> Option<&str>
    requires { IsAscii line.now }
    ensures { option_map (λ r. r.now) result ≡ last_in (words_in line.now) }
{
    let (first, rest) = word(line)?;
    match word(rest) {
        None => Some(first),
        Some(_) => None,
    }
}

/// Which of two words the one word is: whether it is the second.
#[tactic(auto, unfolding(crate::specs::Reading::choice_in, crate::specs::Reading::and_then))]
pub(crate) fn choice(first: &str, second: &str, line: &[u8]) -> Option<bool>
    requires { IsAscii line.now }
    ensures { result ≡ choice_in first.now second.now (words_in line.now) }
{
    let word = last(line)?;
    if word == first {
        Some(false)
    } else if word == second {
        Some(true)
    } else {
        None
    }
}

/// The text without the blanks at its ends.
pub(crate) fn trimmed(line: &[u8]) -> &str
    requires { IsAscii line.now }
    ensures { result.now ≡ cut_blanks (skip_blanks line.now) }
{
    text(cut(skipped(line)))
}
