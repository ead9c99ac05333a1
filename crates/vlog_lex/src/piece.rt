//! Pieces of a text: blanks, comments, attributes and tokens.
ghost use Rattle.std.specs.Prelude.{◌≡◌, ℕ, ◌+◌, ◌<◌, ◌≤◌, IsTrue, length, slice_index, Option, Some, IfOk, IfErr, ◌⊎◌};
ghost use Rattle.vlog_lex.specs.declared.tokens.Kind.TheVariants.{Identifier, Str};
ghost use Rattle.vlog_lex.specs.declared.piece.Lead.TheVariants.{Slash, Letter, Dollar, Backslash, Quote, Sign};
ghost use Rattle.vlog_lex.specs.declared.piece.Broken.TheVariants.{AtByte, AtString};
ghost use Rattle.vlog_lex.specs.Bytes.{is_letter};
ghost use Rattle.vlog_lex.specs.Marks.{is_single};
ghost use Rattle.vlog_lex.specs.Words.{IsSystemName, IsEscapedName, IsQuoted};
ghost use Rattle.vlog_lex.specs.Pieces.{lead_of, len_of, offset_of, slash_at, digit_at, IsOne, IsOneOfAscii, HasNone, HasOtherByte, IsSimple, Breaks};

use crate::bytes::{ascii_bytes, blank, byte_at, digit, letter, line_bytes};
use crate::comments::close;
use crate::numbers::number_len;
use crate::tokens::Kind;
use crate::words::{escaped_len, mark_len, name_len, quoted_len, single, system_len};

/// What a first byte begins.
#[derive(Clone, Copy)]
pub(crate) enum Lead {
    Blank,
    Slash,
    Letter,
    Dollar,
    Backslash,
    Digit,
    Quote,
    Sign,
    Other,
}

/// What stands in front of a text, and how many bytes it takes.
#[derive(Clone, Copy)]
pub(crate) enum Piece {
    /// A blank, a comment or an attribute.
    Gap(usize),
    /// A token.
    One(Kind, usize),
    /// The two marks of a `(*` that begins no attribute.
    OpenMarks,
}

/// Why nothing stands in front of a text. `AtByte` counts the bytes before the one that can't stand there.
#[derive(Clone, Copy)]
pub(crate) enum Broken {
    AtByte(usize),
    AtNumber,
    AtComment,
    AtString,
}

/// Where in an attribute a piece stands.
#[derive(Clone, Copy)]
pub(crate) enum Part {
    BeforeName,
    AfterName,
    BeforeValue,
    AfterValue,
}

impl Piece {
    /// How many bytes it takes.
    pub(crate) fn len(&self) -> usize
        ensures { result ≡ len_of self.now }
    {
        match self {
            Piece::Gap(n) => *n,
            Piece::One(_, n) => *n,
            Piece::OpenMarks => 2,
        }
    }
}

#[tactic(auto, unfolding(crate::specs::Pieces::lead_of))]
fn lead_by(b: u8) -> Lead
    ensures value { result ≡ lead_of b }
    ensures letter { result ≡ Letter → IsTrue (is_letter b) }
    ensures sign { result ≡ Sign → IsTrue (is_single b) }
    ensures slash { result ≡ Slash → b ≡ 47 }
    ensures dollar { result ≡ Dollar → b ≡ 36 }
    ensures backslash { result ≡ Backslash → b ≡ 92 }
    ensures quote { result ≡ Quote → b ≡ 34 }
{
    if letter(b) {
        Lead::Letter
    } else if blank(b) {
        Lead::Blank
    } else if digit(b) || b == b'\'' {
        Lead::Digit
    } else if b == b'/' {
        Lead::Slash
    } else if single(b) {
        Lead::Sign
    } else if b == b'$' {
        Lead::Dollar
    } else if b == b'\\' {
        Lead::Backslash
    } else if b == b'"' {
        Lead::Quote
    } else {
        Lead::Other
    }
}

/// A comment, or the mark.
#[tactic(auto, unfolding(crate::specs::Pieces::slash_at))]
fn slash(bytes: &[u8]) -> Result<Piece, Broken>
    requires some { 0 < length bytes.now }
    requires slash { slice_index bytes.now 0 ≡ 47 }
    ensures value { result ≡ slash_at bytes.now }
    ensures within { IfOk result (λ p. (0 < len_of p) × (len_of p ≤ length bytes.now)) }
    ensures inside { IfErr result (λ f. offset_of f < length bytes.now) }
{
    let second = byte_at(bytes, 1);
    if second == b'/' {
        let (_, line) = bytes.split_at(2);
        Ok(Piece::Gap(2 + line_bytes(line)))
    } else if second == b'*' {
        let (_, inner) = bytes.split_at(2);
        match close(inner) {
            None => Err(Broken::AtComment),
            Some(n) => Ok(Piece::Gap(2 + n)),
        }
    } else {
        Ok(Piece::One(Kind::Mark, 1))
    }
}

#[tactic(auto, unfolding(crate::specs::Pieces::digit_at))]
fn number(bytes: &[u8]) -> Result<Piece, Broken>
    requires some { 0 < length bytes.now }
    ensures value { result ≡ digit_at bytes.now }
    ensures within { IfOk result (λ p. (0 < len_of p) × (len_of p ≤ length bytes.now)) }
    ensures inside { IfErr result (λ f. offset_of f < length bytes.now) }
{
    match number_len(bytes) {
        None => Err(Broken::AtNumber),
        Some(n) => Ok(Piece::One(Kind::Number, n)),
    }
}

fn system(bytes: &[u8]) -> Result<Piece, Broken>
    requires some { 0 < length bytes.now }
    requires dollar { slice_index bytes.now 0 ≡ 36 }
    ensures ok { IfOk result (IsOne IsSystemName Identifier bytes.now) }
    ensures err { IfErr result (HasNone IsSystemName (AtByte 0) bytes.now) }
    ensures within { IfOk result (λ p. (0 < len_of p) × (len_of p ≤ length bytes.now)) }
    ensures inside { IfErr result (λ f. offset_of f < length bytes.now) }
{
    match system_len(bytes) {
        None => Err(Broken::AtByte(0)),
        Some(n) => Ok(Piece::One(Kind::Identifier, n)),
    }
}

fn escaped(bytes: &[u8]) -> Result<Piece, Broken>
    requires some { 0 < length bytes.now }
    requires backslash { slice_index bytes.now 0 ≡ 92 }
    ensures ok { IfOk result (IsOneOfAscii IsEscapedName Identifier bytes.now) }
    ensures err { IfErr result (λ f. HasNone IsEscapedName (AtByte 0) bytes.now f ⊎ HasOtherByte IsEscapedName bytes.now f) }
    ensures within { IfOk result (λ p. (0 < len_of p) × (len_of p ≤ length bytes.now)) }
    ensures inside { IfErr result (λ f. offset_of f < length bytes.now) }
{
    match escaped_len(bytes) {
        None => Err(Broken::AtByte(0)),
        Some(n) => {
            let (word, _) = bytes.split_at(n);
            let plain = ascii_bytes(word);
            if plain == n {
                Ok(Piece::One(Kind::Identifier, n))
            } else {
                Err(Broken::AtByte(plain))
            }
        }
    }
}

fn quoted(bytes: &[u8]) -> Result<Piece, Broken>
    requires some { 0 < length bytes.now }
    requires quote { slice_index bytes.now 0 ≡ 34 }
    ensures ok { IfOk result (IsOneOfAscii IsQuoted Str bytes.now) }
    ensures err { IfErr result (λ f. HasNone IsQuoted AtString bytes.now f ⊎ HasOtherByte IsQuoted bytes.now f) }
    ensures within { IfOk result (λ p. (0 < len_of p) × (len_of p ≤ length bytes.now)) }
    ensures inside { IfErr result (λ f. offset_of f < length bytes.now) }
{
    match quoted_len(bytes) {
        None => Err(Broken::AtString),
        Some(n) => {
            let (word, _) = bytes.split_at(n);
            let plain = ascii_bytes(word);
            if plain == n {
                Ok(Piece::One(Kind::Str, n))
            } else {
                Err(Broken::AtByte(plain))
            }
        }
    }
}

/// The blank, comment or token in front.
pub(crate) fn simple(bytes: &[u8]) -> Result<Piece, Broken>
    requires some { 0 < length bytes.now }
    ensures ok { IfOk result (IsSimple bytes.now) }
    ensures err { IfErr result (Breaks bytes.now) }
    ensures within { IfOk result (λ p. (0 < len_of p) × (len_of p ≤ length bytes.now)) }
    ensures inside { IfErr result (λ f. offset_of f < length bytes.now) }
{
    match lead_by(bytes[0]) {
        Lead::Letter => Ok(Piece::One(Kind::Identifier, name_len(bytes))),
        Lead::Blank => Ok(Piece::Gap(1)),
        Lead::Sign => Ok(Piece::One(Kind::Mark, mark_len(bytes))),
        Lead::Slash => slash(bytes),
        Lead::Digit => number(bytes),
        Lead::Dollar => system(bytes),
        Lead::Backslash => escaped(bytes),
        Lead::Quote => quoted(bytes),
        Lead::Other => Err(Broken::AtByte(0)),
    }
}

impl Broken {
    /// How many bytes stand before the one that can't stand there.
    pub(crate) fn offset(&self) -> usize
        ensures { result ≡ offset_of self.now }
    {
        match self {
            Broken::AtByte(n) => *n,
            Broken::AtNumber => 0,
            Broken::AtComment => 0,
            Broken::AtString => 0,
        }
    }
}
