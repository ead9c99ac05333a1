//! The expression in front of some tokens.

ghost use Rattle.std.specs.Prelude.{◌≡◌, ◌+◌, ◌-◌, ◌<◌, ◌≤◌, ℕ, ◌⊎◌, IfSome, IfOk, IfErr, MatchResult, length, drop};
ghost use Rattle.std.specs.Option.{option_map};
ghost use Rattle.vlog_lex.specs.Tokens.{AreWithin};
ghost use Rattle.vlog_tree.specs.declared.expr.Expr.{Expr};
ghost use Rattle.vlog_tree.specs.Lexemes.{lexeme, lexemes, place_at};
ghost use Rattle.vlog_tree.specs.Refused.{is_refused};
ghost use Rattle.vlog_expr.specs.declared.fault.ExprFault.TheVariants.{Memory};
ghost use Rattle.vlog_expr.specs.Reading.{first};
ghost use Rattle.vlog_expr.specs.Begins.{IsAnswer, IsFault, last, refusal, named_place, fault_of};

use crate::cursor::{Cursor, bytes_of};
use crate::fault::ExprFault;
use crate::grammar::expr;
use crate::refused::is_refused;
use crate::stuck::Stuck;
use rdc_outside::{Place, Seq, Text};
use std::alloc::Global;
use vlog_lex::Token;
use vlog_tree::Expr;

/// How deep an expression may be.
const DEPTH: usize = 255;

/// The place of the token in front, or the text's end.
#[tactic(auto, unfolding(crate::specs::Begins::named_place, crate::specs::Reading::first, vlog_tree::specs::Lexemes::place_at, vlog_tree::specs::Lexemes::lexeme))]
pub fn place_of(bytes: &[u8], places: &[Place], rest: &[Token]) -> Place
    requires places { length places.now ≡ length bytes.now + 1 }
    requires within { AreWithin (length bytes.now) rest.now }
    ensures { result ≡ named_place (place_at places.now (length bytes.now)) (first (lexemes bytes.now places.now rest.now)) }
{
    match rest {
        [] => places[bytes.len()],
        [token, ..] => places[token.from],
    }
}

/// The last of some tokens.
#[tactic(auto, unfolding(crate::specs::Begins::last))]
fn last_of(bytes: &[u8], places: &[Place], tokens: &[Token]) -> Option<Token>
    requires within { AreWithin (length bytes.now) tokens.now }
    ensures value { option_map (lexeme bytes.now places.now) result ≡ last (lexemes bytes.now places.now tokens.now) }
    ensures inside { IfSome result (λ t. (t.from < t.to) × (t.to ≤ length bytes.now)) }
{
    if tokens.is_empty() {
        None
    } else {
        Some(tokens[tokens.len() - 1])
    }
}

/// The token in front is refused by name.
#[tactic(auto, unfolding(crate::specs::Begins::refusal))]
fn refuses(bytes: &[u8], places: &[Place], pre: &[Token], token: Token) -> bool
    requires before { AreWithin (length bytes.now) pre.now }
    requires order { token.from < token.to }
    requires within { token.to ≤ length bytes.now }
    ensures { result ≡ is_refused (last (lexemes bytes.now places.now pre.now)) (lexeme bytes.now places.now token) }
{
    is_refused(bytes, places, last_of(bytes, places, pre), token)
}

/// The fault where the token in front of the rest is wrong.
#[tactic(auto, unfolding(crate::specs::Begins::fault_of, crate::specs::Begins::refusal, crate::specs::Begins::named_place, crate::specs::Reading::first, vlog_tree::specs::Lexemes::lexeme))]
pub fn wrong_at(
    alloc: Global,
    bytes: &[u8],
    places: &[Place],
    pre: &[Token],
    rest: &[Token],
) -> ExprFault
    requires places { length places.now ≡ length bytes.now + 1 }
    requires before { AreWithin (length bytes.now) pre.now }
    requires within { AreWithin (length bytes.now) rest.now }
    ensures { (result ≡ Memory) ⊎ (result ≡ fault_of (named_place (place_at places.now (length bytes.now)) (first (lexemes bytes.now places.now rest.now))) (refusal (last (lexemes bytes.now places.now pre.now)) (first (lexemes bytes.now places.now rest.now)))) }
{
    let place = place_of(bytes, places, rest);
    match rest {
        [] => ExprFault::Syntax(place),
        [token, ..] => {
            if !refuses(bytes, places, pre, *token) {
                return ExprFault::Syntax(place);
            }
            match bytes_of(bytes, *token).to_vec(alloc) {
                Ok(word) => ExprFault::Unsupported(Seq::from_vec(word), place),
                Err(_) => ExprFault::Memory,
            }
        }
    }
}

/// The expression that tokens begin with, and how many it takes.
fn front(
    alloc: Global,
    bytes: &[u8],
    places: &[Place],
    ahead: &[Token],
) -> Result<(Expr, usize), ExprFault>
    requires places { length places.now ≡ length bytes.now + 1 }
    requires within { AreWithin (length bytes.now) ahead.now }
    ensures value { IfOk result (λ r. IsAnswer (lexemes bytes.now places.now ahead.now) r.0 r.1) }
    ensures within { IfOk result (λ r. r.1 ≤ length ahead.now) }
    ensures complete { (x : Expr) (count : ℕ) → IsAnswer (lexemes bytes.now places.now ahead.now) x count → MatchResult result (λ r. (r.0 ≡ x) × (r.1 ≡ count)) (λ fault. fault ≡ Memory) }
    ensures cause { IfErr result (IsFault (place_at places.now (length bytes.now)) (lexemes bytes.now places.now ahead.now)) }
{
    let mut cursor = Cursor::new(bytes, places, ahead);
    match expr(alloc, &mut cursor, DEPTH, 0) {
        Ok(found) => Ok((found.into_expr(), ahead.len() - cursor.left())),
        Err(Stuck::Memory) => Err(ExprFault::Memory),
        Err(Stuck::Deep) => {
            let (_, rest) = ahead.split_at(ahead.len() - cursor.left());
            Err(ExprFault::TooDeep(place_of(bytes, places, rest)))
        }
        Err(Stuck::Wrong) => {
            let (pre, rest) = ahead.split_at(ahead.len() - cursor.left());
            Err(wrong_at(alloc, bytes, places, pre, rest))
        }
    }
}

/// The one expression that the tokens from a number on begin with and the next token can't go on with, and the number of
/// that token. Costs one pass, memory for the tree, and a stack as deep as the tree.
pub fn parse_expr(
    alloc: Global,
    text: &Text,
    tokens: &[Token],
    from: usize,
) -> Result<(Expr, usize), ExprFault>
    requires places { length text.now.places ≡ length text.now.bytes + 1 }
    requires within { AreWithin (length text.now.bytes) tokens.now }
    requires begins { from ≤ length tokens.now }

    // The tokens from `from` up to the answered one spell the expression, which is less than 256 deep, and no expression
    // goes on with that one.
    ensures value { IfOk result (λ r. (from ≤ r.1) × IsAnswer (drop from (lexemes text.now.bytes text.now.places tokens.now)) r.0 (r.1 - from)) }

    // Tokens that begin with such an expression are refused for want of memory alone, and others for the fault's cause.
    ensures complete { (x : Expr) (count : ℕ) → IsAnswer (drop from (lexemes text.now.bytes text.now.places tokens.now)) x count → MatchResult result (λ r. (r.0 ≡ x) × (r.1 ≡ from + count)) (λ fault. fault ≡ Memory) }
    ensures cause { IfErr result (IsFault (place_at text.now.places (length text.now.bytes)) (drop from (lexemes text.now.bytes text.now.places tokens.now))) }
{
    let (_, ahead) = tokens.split_at(from);
    let (found, count) = front(alloc, text.bytes.as_slice(), text.places.as_slice(), ahead)?;
    Ok((found, from + count))
}
