//! Which tokens are refused by name, where one is refused.

ghost use Rattle.std.specs.Prelude.{◌≡◌, ◌≤◌, ◌&&◌, ◌||◌, IfSome, length, map, codes};
ghost use Rattle.std.specs.List.{list_any};
ghost use Rattle.std.specs.Option.{option_map};
ghost use Rattle.std.specs.Str.{bytes_eq};
ghost use Rattle.vlog_tree.specs.Lexemes.{lexeme, word_in, mark_in, digits_in};
ghost use Rattle.vlog_tree.specs.Numbers.{is_x, is_z};
ghost use Rattle.vlog_tree.specs.Refused as spec;
ghost use Rattle.vlog_tree.specs.Reserved.{words_of_grammar, is_foreign_word};

use crate::cursor::bytes_of;
use crate::names::{is_one_of, is_reserved};
use crate::numbers::{has_x, has_z};
use rdc_outside::Place;
use vlog_lex::{Kind, Token};

/// The reserved words that a production names.
fn words_of_grammar() -> &'static [&'static str]
    ensures { map (λ t. t.now) result.now ≡ words_of_grammar }
{
    &[
        "always",
        "and",
        "assign",
        "begin",
        "buf",
        "case",
        "casez",
        "default",
        "else",
        "end",
        "endcase",
        "endgenerate",
        "endmodule",
        "for",
        "generate",
        "genvar",
        "if",
        "input",
        "integer",
        "localparam",
        "module",
        "nand",
        "negedge",
        "nor",
        "not",
        "or",
        "output",
        "parameter",
        "posedge",
        "reg",
        "signed",
        "wire",
        "xnor",
        "xor",
    ]
}

#[tactic(auto, unfolding(vlog_tree::specs::Reserved::is_foreign_word))]
fn is_foreign_word(word: &[u8]) -> bool
    ensures { result ≡ is_foreign_word word.now }
{
    is_reserved(word) && !is_one_of(word, words_of_grammar())
}

#[tactic(auto, unfolding(vlog_tree::specs::Refused::is_free_word))]
fn is_free_word(word: &[u8]) -> bool
    ensures { result ≡ spec.is_free_word word.now }
{
    match word {
        [] => false,
        [_, ..] => !is_reserved(word),
    }
}

/// A system name, or a reserved word that no production names.
#[tactic(auto, unfolding(vlog_tree::specs::Refused::is_refused_word))]
fn is_refused_word(word: &[u8]) -> bool
    ensures { result ≡ spec.is_refused_word word.now }
{
    match word {
        [b'$', ..] => true,
        _ => is_foreign_word(word),
    }
}

/// The bytes, if the token is a word.
#[tactic(auto, unfolding(vlog_tree::specs::Lexemes::word_in))]
fn word_in<'t>(kind: Kind, bytes: &'t [u8]) -> &'t [u8]
    ensures { result.now ≡ word_in kind bytes.now }
{
    match kind {
        Kind::Identifier => bytes,
        _ => &[],
    }
}

/// The bytes, if the token is a mark.
#[tactic(auto, unfolding(vlog_tree::specs::Lexemes::mark_in))]
fn mark_in<'t>(kind: Kind, bytes: &'t [u8]) -> &'t [u8]
    ensures { result.now ≡ mark_in kind bytes.now }
{
    match kind {
        Kind::Mark => bytes,
        _ => &[],
    }
}

/// The bytes, if the token is a number.
#[tactic(auto, unfolding(vlog_tree::specs::Lexemes::digits_in))]
fn digits_in<'t>(kind: Kind, bytes: &'t [u8]) -> &'t [u8]
    ensures { result.now ≡ digits_in kind bytes.now }
{
    match kind {
        Kind::Number => bytes,
        _ => &[],
    }
}

/// Refused whatever stands before it.
pub(crate) fn is_refused_alone(kind: Kind, bytes: &[u8]) -> bool
    ensures { result ≡ (spec.is_refused_word (word_in kind bytes.now) || list_any is_x (digits_in kind bytes.now) || list_any is_z (digits_in kind bytes.now) || bytes_eq (mark_in kind bytes.now) (codes "#")) }
{
    is_refused_word(word_in(kind, bytes))
        || has_x(digits_in(kind, bytes))
        || has_z(digits_in(kind, bytes))
        || mark_in(kind, bytes) == b"#".as_slice()
}

/// `[` or `=` behind such a token.
pub(crate) fn is_refused_behind(before: Kind, word: &[u8], kind: Kind, bytes: &[u8]) -> bool
    ensures { result ≡ (spec.is_free_word (word_in before word.now) && (bytes_eq (mark_in kind bytes.now) (codes "[") || bytes_eq (mark_in kind bytes.now) (codes "="))) }
{
    is_free_word(word_in(before, word))
        && (mark_in(kind, bytes) == b"[".as_slice() || mark_in(kind, bytes) == b"=".as_slice())
}

/// The token is refused by name, behind the one before it.
#[tactic(auto, unfolding(vlog_tree::specs::Refused::is_refused, vlog_tree::specs::Refused::is_refused_alone, vlog_tree::specs::Refused::is_refused_behind, vlog_tree::specs::Numbers::has_x, vlog_tree::specs::Numbers::has_z, vlog_tree::specs::Lexemes::is_mark, vlog_tree::specs::Lexemes::lexeme))]
pub fn is_refused(bytes: &[u8], places: &[Place], before: Option<Token>, token: Token) -> bool
    requires order { token.from ≤ token.to }
    requires within { token.to ≤ length bytes.now }
    requires behind { IfSome before (λ t. (t.from ≤ t.to) × (t.to ≤ length bytes.now)) }
    ensures { result ≡ spec.is_refused (option_map (lexeme bytes.now places.now) before) (lexeme bytes.now places.now token) }
{
    let text = bytes_of(bytes, token);
    match before {
        None => is_refused_alone(token.kind, text),
        Some(other) => is_refused_alone(token.kind, text)
            || is_refused_behind(other.kind, bytes_of(bytes, other), token.kind, text),
    }
}
