//! The tokens of a whole text.
ghost use Rattle.std.specs.Prelude.{◌≡◌, ℕ, ◌+◌, ◌<◌, ◌≤◌, ◌^◌, ◌⊎◌, ◌++◌, List, length, IsTrue, IfOk, IfErr, OnOk, MatchResult, Some, slice_get};
ghost use Rattle.vlog_lex.specs.declared.fault.LexFault.TheVariants.{Memory};
ghost use Rattle.vlog_lex.specs.declared.tokens.Token.{Token};
ghost use Rattle.vlog_lex.specs.Pieces.{len_of, offset_of};
ghost use Rattle.vlog_lex.specs.Tokens.{opens, IsAttribute, AreOpenMarks, Stands, Fails, tokens_of, AreTokens, fault_of, IsFault, AreWithin, OneList};

use crate::attribute::attribute_len;
use crate::bytes::byte_at;
use crate::fault::LexFault;
use crate::piece::{Broken, Piece, simple};
use crate::tokens::{Kind, Token};
use rdc_outside::{Place, Text};
use std::alloc::{AllocError, Global};

#[tactic(auto, unfolding(crate::specs::Tokens::opens))]
fn opens(bytes: &[u8]) -> bool
    ensures value { result ≡ opens bytes.now }
    ensures within { IsTrue result → 2 ≤ length bytes.now }
{
    byte_at(bytes, 0) == b'(' && byte_at(bytes, 1) == b'*'
}

/// What stands behind a `(*`: an attribute, or the two marks alone.
fn opened(bytes: &[u8]) -> Piece
    requires long { 2 ≤ length bytes.now }
    ensures value { IsAttribute bytes.now result ⊎ AreOpenMarks bytes.now result }
    ensures within { (0 < len_of result) × (len_of result ≤ length bytes.now) }
{
    let (_, inner) = bytes.split_at(2);
    match attribute_len(inner) {
        None => Piece::OpenMarks,
        Some(n) => Piece::Gap(2 + n),
    }
}

/// The piece in front.
fn front(bytes: &[u8]) -> Result<Piece, Broken>
    requires some { 0 < length bytes.now }
    ensures ok { IfOk result (Stands bytes.now) }
    ensures err { IfErr result (Fails bytes.now) }
    ensures within { IfOk result (λ p. (0 < len_of p) × (len_of p ≤ length bytes.now)) }
    ensures inside { IfErr result (λ f. offset_of f < length bytes.now) }
{
    if opens(bytes) {
        Ok(opened(bytes))
    } else {
        simple(bytes)
    }
}

/// Adds the tokens of a piece that begins at such a byte.
fn push(tokens: &mut Vec<Token>, piece: Piece, at: usize) -> Result<(), AllocError>
    requires { at + len_of piece < 2 ^ 64 }
    ensures { OnOk result (tokens.new.items ≡ tokens.old.items ++ tokens_of piece at) }
{
    match piece {
        Piece::Gap(_) => Ok(()),
        Piece::One(kind, n) => {
            tokens.push(Token {
                kind,
                from: at,
                to: at + n,
            })?;
            Ok(())
        }
        Piece::OpenMarks => {
            let kind = Kind::Mark;
            tokens.push(Token {
                kind,
                from: at,
                to: at + 1,
            })?;
            tokens.push(Token {
                kind,
                from: at + 1,
                to: at + 2,
            })?;
            Ok(())
        }
    }
}

/// The place of a byte.
fn place_of(places: &[Place], at: usize) -> Place
    requires { at < length places.now }
    ensures { slice_get places.now at ≡ Some result }
{
    places[at]
}

fn fault_at(place: Place, broken: Broken) -> LexFault
    ensures { result ≡ fault_of broken place }
{
    match broken {
        Broken::AtByte(_) => LexFault::BadByte(place),
        Broken::AtNumber => LexFault::BadNumber(place),
        Broken::AtComment => LexFault::OpenComment(place),
        Broken::AtString => LexFault::OpenString(place),
    }
}

/// The tokens of bytes that stand at these places.
fn scan(alloc: Global, bytes: &[u8], places: &[Place]) -> Result<Vec<Token>, LexFault>
    requires { length places.now ≡ length bytes.now + 1 }
    ensures ok { IfOk result (λ v. AreTokens 0 bytes.now v.items) }
    ensures within { IfOk result (λ v. AreWithin (length bytes.now) v.items) }
    ensures few { IfOk result (λ v. length v.items ≤ length bytes.now) }
    ensures err { IfErr result (IsFault bytes.now places.now) }
{
    let mut tokens = Vec::new(alloc);
    let mut at = 0;
    let mut rest = bytes;
    'pieces: while !rest.is_empty() {
        let piece = match front(rest) {
            Ok(piece) => piece,
            Err(broken) => {
                let place = place_of(places, at + broken.offset());
                return Err(fault_at(place, broken));
            }
        };
        let len = piece.len();
        let Ok(()) = push(&mut tokens, piece, at) else {
            return Err(LexFault::Memory);
        };
        let (_, left) = rest.split_at(len);
        at += len;
        rest = left;
    }
    Ok(tokens)
}

/// The tokens of a text. Costs one pass, and memory for the tokens alone.
pub fn lex(alloc: Global, text: &Text) -> Result<Vec<Token>, LexFault>
    requires places { length text.now.places ≡ length text.now.bytes + 1 }

    // The tokens are the text's, each is a part of it, and there are no more of them than bytes.
    ensures value { IfOk result (λ v. AreTokens 0 text.now.bytes v.items) }
    ensures within { IfOk result (λ v. AreWithin (length text.now.bytes) v.items) }
    ensures few { IfOk result (λ v. length v.items ≤ length text.now.bytes) }

    // A text that has tokens is refused for want of memory alone, and another for a cause that stands at the place.
    ensures complete { (ts : List Token) → AreTokens 0 text.now.bytes ts → MatchResult result (λ v. v.items ≡ ts) (λ fault. fault ≡ Memory) }
    ensures cause { IfErr result (IsFault text.now.bytes text.now.places) }
{
    scan(alloc, text.bytes.as_slice(), text.places.as_slice())
}

/// A text has at most one list of tokens.
pub fn one_list()
    ensures { OneList }
{}
