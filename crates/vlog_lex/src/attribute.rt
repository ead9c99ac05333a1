//! Attributes: how many bytes the one in front takes.
ghost use Rattle.std.specs.Prelude.{◌≡◌, ℕ, ◌+◌, ◌<◌, ◌≤◌, length, slice_index, Option, Some, IfSome, IfNone, IsTrue};
ghost use Rattle.vlog_lex.specs.declared.piece.Part.{Part};
ghost use Rattle.vlog_lex.specs.declared.piece.Part.TheVariants.{BeforeName};
ghost use Rattle.vlog_lex.specs.Pieces.{len_of, IsSimple};
ghost use Rattle.vlog_lex.specs.Attributes.{part_after, may_end, ends_at, GoesOn, IsAttributeFrom};

use crate::bytes::byte_at;
use crate::piece::{Part, Piece, simple};
use crate::tokens::Kind;

#[tactic(auto, unfolding(crate::specs::Attributes::part_after))]
fn after_piece(part: Part, piece: Piece, b: u8) -> Option<Part>
    ensures { result ≡ part_after part piece b }
{
    match (part, piece) {
        (_, Piece::Gap(_)) => Some(part),
        (Part::BeforeName, Piece::One(Kind::Identifier, _)) => {
            if b == b'$' {
                None
            } else {
                Some(Part::AfterName)
            }
        }
        (Part::AfterName, Piece::One(Kind::Mark, n)) => {
            if b == b'=' && n == 1 {
                Some(Part::BeforeValue)
            } else if b == b',' && n == 1 {
                Some(Part::BeforeName)
            } else {
                None
            }
        }
        (Part::BeforeValue, Piece::One(Kind::Number, _)) => Some(Part::AfterValue),
        (Part::BeforeValue, Piece::One(Kind::Str, _)) => Some(Part::AfterValue),
        (Part::AfterValue, Piece::One(Kind::Mark, n)) => {
            if b == b',' && n == 1 {
                Some(Part::BeforeName)
            } else {
                None
            }
        }
        _ => None,
    }
}

#[tactic(auto, unfolding(crate::specs::Attributes::ends_at, crate::specs::Attributes::may_end))]
fn ends(part: Part, bytes: &[u8]) -> bool
    ensures value { result ≡ ends_at part bytes.now }
    ensures within { IsTrue result → 2 ≤ length bytes.now }
{
    let may = match part {
        Part::BeforeName => false,
        Part::AfterName => true,
        Part::BeforeValue => false,
        Part::AfterValue => true,
    };
    may && byte_at(bytes, 0) == b'*' && byte_at(bytes, 1) == b')'
}

/// The part that what stands in front leads to, and how many bytes that takes.
fn step(part: Part, bytes: &[u8]) -> Option<(Part, usize)>
    ensures found { IfSome result (λ x. GoesOn part bytes.now x.0 x.1) }
    ensures none { IfNone result ((next : Part) (count : ℕ) → GoesOn part bytes.now next count → ⊥) }
    ensures within { IfSome result (λ x. (0 < x.1) × (x.1 ≤ length bytes.now)) }
{
    if bytes.is_empty() {
        return None;
    }
    let Ok(piece) = simple(bytes) else {
        return None;
    };
    match after_piece(part, piece, bytes[0]) {
        None => None,
        Some(next) => Some((next, piece.len())),
    }
}

/// The length of what completes an attribute behind its `(*`, if one begins there.
pub(crate) fn attribute_len(bytes: &[u8]) -> Option<usize>
    ensures found { IfSome result (IsAttributeFrom BeforeName bytes.now) }
    ensures none { IfNone result ((n : ℕ) → IsAttributeFrom BeforeName bytes.now n → ⊥) }
    ensures within { IfSome result (λ n. n ≤ length bytes.now) }
{
    let mut part = Part::BeforeName;
    let mut count = 0;
    let mut rest = bytes;
    'pieces: loop {
        if ends(part, rest) {
            return Some(count + 2);
        }
        let Some((next, len)) = step(part, rest) else {
            return None;
        };
        let (_, left) = rest.split_at(len);
        part = next;
        count += len;
        rest = left;
    }
}
