//! Names, strings and marks: the longest in front.
ghost use Rattle.std.specs.Prelude.{◌≡◌, ℕ, ◌+◌, ◌<◌, ◌≤◌, IsTrue, IsFalse, length, take, slice_index, IfSome, IfNone};
ghost use Rattle.vlog_lex.specs.Bytes.{is_letter, is_name_byte};
ghost use Rattle.vlog_lex.specs.Longest.{IsLongest};
ghost use Rattle.vlog_lex.specs.Marks.{is_single, is_pair, is_triple, IsMark};
ghost use Rattle.vlog_lex.specs.Words.{IsName, IsSystemName, IsEscapedName, IsQuoted};

use crate::bytes::{byte_at, name_bytes, quotable_bytes, visible_bytes};

/// Whether the byte is a mark. `(` and `)` come first, since they are the most frequent.
#[tactic(auto, unfolding(crate::specs::Marks::is_single))]
pub(crate) fn single(a: u8) -> bool
    ensures { result ≡ is_single a }
{
    a == b'('
        || a == b')'
        || a == b'['
        || a == b']'
        || a == b'{'
        || a == b'}'
        || a == b','
        || a == b';'
        || a == b':'
        || a == b'.'
        || a == b'#'
        || a == b'@'
        || a == b'='
        || a == b'+'
        || a == b'-'
        || a == b'*'
        || a == b'/'
        || a == b'%'
        || a == b'<'
        || a == b'>'
        || a == b'!'
        || a == b'~'
        || a == b'&'
        || a == b'|'
        || a == b'^'
        || a == b'?'
}

#[tactic(auto, unfolding(crate::specs::Marks::is_pair))]
fn pair(a: u8, b: u8) -> bool
    ensures { result ≡ is_pair a b }
{
    if b == b'=' {
        a == b'=' || a == b'<' || a == b'>' || a == b'!'
    } else if b == b':' {
        a == b'+' || a == b'-'
    } else if a == b'~' {
        b == b'&' || b == b'|' || b == b'^'
    } else if b == b'~' {
        a == b'^'
    } else {
        a == b && (a == b'*' || a == b'&' || a == b'|' || a == b'<' || a == b'>')
    }
}

#[tactic(auto, unfolding(crate::specs::Marks::is_triple))]
fn triple(a: u8, b: u8, c: u8) -> bool
    ensures { result ≡ is_triple a b c }
{
    b == c && ((a == b && (a == b'<' || a == b'>' || a == b'=')) || (a == b'!' && b == b'='))
}

/// Whether the first three bytes are a mark.
#[tactic(auto, using(crate::proofs::MarkLemmas::three))]
fn has_triple(bytes: &[u8]) -> bool
    ensures found { IsTrue result → (2 < length bytes.now) × IsMark (take 3 bytes.now) }
    ensures none { IsFalse result → 2 < length bytes.now → IsMark (take 3 bytes.now) → ⊥ }
{
    bytes.len() > 2 && triple(bytes[0], bytes[1], bytes[2])
}

/// Whether the first two bytes are a mark.
#[tactic(auto, using(crate::proofs::MarkLemmas::two))]
fn has_pair(bytes: &[u8]) -> bool
    ensures found { IsTrue result → (1 < length bytes.now) × IsMark (take 2 bytes.now) }
    ensures none { IsFalse result → 1 < length bytes.now → IsMark (take 2 bytes.now) → ⊥ }
{
    bytes.len() > 1 && pair(bytes[0], bytes[1])
}

/// The length of the longest mark in front.
pub(crate) fn mark_len(bytes: &[u8]) -> usize
    requires some { 0 < length bytes.now }
    requires single { IsTrue (is_single (slice_index bytes.now 0)) }
    ensures longest { IsLongest IsMark bytes.now result }
    ensures within { (0 < result) × (result ≤ length bytes.now) }
{
    if has_triple(bytes) {
        3
    } else if has_pair(bytes) {
        2
    } else {
        1
    }
}

/// The length of the name in front.
pub(crate) fn name_len(bytes: &[u8]) -> usize
    requires some { 0 < length bytes.now }
    requires letter { IsTrue (is_letter (slice_index bytes.now 0)) }
    ensures longest { IsLongest IsName bytes.now result }
    ensures within { (0 < result) × (result ≤ length bytes.now) }
{
    let (_, later) = bytes.split_at(1);
    1 + name_bytes(later)
}

/// The length of the system name in front.
pub(crate) fn system_len(bytes: &[u8]) -> Option<usize>
    requires some { 0 < length bytes.now }
    requires dollar { slice_index bytes.now 0 ≡ 36 }
    ensures longest { IfSome result (IsLongest IsSystemName bytes.now) }
    ensures none { IfNone result ((n : ℕ) → IsLongest IsSystemName bytes.now n → ⊥) }
    ensures within { IfSome result (λ n. (0 < n) × (n ≤ length bytes.now)) }
{
    let (_, later) = bytes.split_at(1);
    let count = name_bytes(later);
    if count == 0 { None } else { Some(1 + count) }
}

/// The length of the escaped name in front, `\` included.
pub(crate) fn escaped_len(bytes: &[u8]) -> Option<usize>
    requires some { 0 < length bytes.now }
    requires backslash { slice_index bytes.now 0 ≡ 92 }
    ensures longest { IfSome result (IsLongest IsEscapedName bytes.now) }
    ensures none { IfNone result ((n : ℕ) → IsLongest IsEscapedName bytes.now n → ⊥) }
    ensures within { IfSome result (λ n. (0 < n) × (n ≤ length bytes.now)) }
{
    let (_, later) = bytes.split_at(1);
    let count = visible_bytes(later);
    if count == 0 { None } else { Some(1 + count) }
}

/// The length of the string in front, with its quotes.
pub(crate) fn quoted_len(bytes: &[u8]) -> Option<usize>
    requires some { 0 < length bytes.now }
    requires quote { slice_index bytes.now 0 ≡ 34 }
    ensures longest { IfSome result (IsLongest IsQuoted bytes.now) }
    ensures none { IfNone result ((n : ℕ) → IsLongest IsQuoted bytes.now n → ⊥) }
    ensures within { IfSome result (λ n. (0 < n) × (n ≤ length bytes.now)) }
{
    let (_, later) = bytes.split_at(1);
    let count = quotable_bytes(later);
    if byte_at(later, count) == b'"' {
        Some(count + 2)
    } else {
        None
    }
}
