//! A cursor over the tokens of a text.

ghost use Rattle.std.specs.Prelude.{◌≡◌, ◌+◌, ◌-◌, ◌≤◌, length, map, take, drop};
ghost use Rattle.std.specs.Option.{option_map};
ghost use Rattle.vlog_lex.specs.Tokens.{AreWithin};
ghost use Rattle.vlog_tree.specs.Lexemes.{lexemes, digits_in};
ghost use Rattle.vlog_tree.specs.Numbers.{settled_in};
ghost use Rattle.vlog_lex.specs.declared.tokens.Kind.TheVariants as kind;
ghost use Rattle.vlog_expr.specs.Reading.{Reads, first, place_if, mark_if, word_if, name_if, number_if, sees, sees_word, expect, expect_word};
ghost use Rattle.vlog_expr.specs.Plain.{mask, masked, seen};
ghost use Rattle.vlog_expr.specs.Exprs.{next_at, unary_at, part_if};

use crate::names::name_in;
use crate::numbers::{has_z, settled_in};
use crate::operators::{binary_of, level_of, part_of, unary_of};
use crate::stuck::Stuck;
use rdc_outside::Place;
use std::marker::Model;
use vlog_lex::{Kind, Token};
use vlog_tree::{Binary, Number, Part, Unary};

/// What an operand goes on with.
#[derive(Clone, Copy, Debug, PartialEq, Eq)]
pub(crate) enum Next {
    Operator(Binary),
    Question,
    /// Nothing.
    End,
}

/// The tokens that are left of a text.
#[derive(Drop)]
pub struct Cursor<'t> {
    bytes: &'t [u8],
    places: &'t [Place],
    rest: &'t [Token],
    /// Numbers with z digits are taken; else they are masked.
    wild: bool,
}

impl<'t> Model for Cursor<'t> {
    ghost use Rattle.std.specs.Prelude.{List};
    ghost use Rattle.vlog_tree.specs.Lexemes.{Lexeme};
    ghost use Rattle.vlog_expr.specs.Ahead.{ahead_of, IsInText};

    ghost Value = { List Lexeme };

    ghost view = { ahead_of };

    ghost invariant = { IsInText };
}

impl<'t> Cursor<'t> {
    /// At the first of these tokens of a text.
    pub fn new(bytes: &'t [u8], places: &'t [Place], rest: &'t [Token]) -> Cursor<'t>
        requires places { length places.now ≡ length bytes.now + 1 }
        requires within { AreWithin (length bytes.now) rest.now }
        ensures { result ≡ lexemes bytes.now places.now rest.now }
    {
        Cursor {
            bytes,
            places,
            rest,
            wild: true,
        }
    }

    /// The same where numbers with z digits are not taken.
    pub(crate) fn masked(&self) -> Cursor<'t>
        ensures { result ≡ map mask self.now }
    {
        Cursor {
            bytes: self.bytes,
            places: self.places,
            rest: self.rest,
            wild: false,
        }
    }

    /// How many tokens are left.
    pub fn left(&self) -> usize
        ensures { result ≡ length self.now }
    {
        self.rest.len()
    }

    /// The place of the next token.
    pub fn place(&self) -> Place
        ensures { result ≡ place_if (first self.now) }
    {
        place_in_front(self.bytes, self.places, self.rest)
    }

    /// The bytes of the next token if it is a mark, or none.
    pub fn mark(&self) -> &'t [u8]
        ensures { result.now ≡ mark_if (first self.now) }
    {
        mark_in_front(self.bytes, self.places, self.rest)
    }

    /// The bytes of the next token if it is a word, or none.
    pub fn word(&self) -> &'t [u8]
        ensures { result.now ≡ word_if (first self.now) }
    {
        word_in_front(self.bytes, self.places, self.rest)
    }

    /// The name that the next token is, if it is one.
    pub fn name(&self) -> Option<&'t [u8]>
        ensures { option_map (λ b. b.now) result ≡ name_if (first self.now) }
    {
        name_in_front(self.bytes, self.places, self.rest)
    }

    /// The number that the next token is, if it is one and has no x digit.
    pub(crate) fn number(&self) -> Option<Number>
        ensures { result ≡ number_if (first self.now) }
    {
        number_in_front(self.bytes, self.places, self.rest, self.wild)
    }

    /// The next token is that mark.
    #[tactic(auto, unfolding(crate::specs::Reading::sees, crate::specs::Reading::mark_if, crate::specs::Reading::first, vlog_tree::specs::Lexemes::is_mark))]
    pub fn sees(&self, mark: &[u8]) -> bool
        requires { 1 ≤ length mark.now }
        ensures { result ≡ sees mark.now (first self.now) }
    {
        self.mark() == mark
    }

    /// The next token is that word.
    #[tactic(auto, unfolding(crate::specs::Reading::sees_word, crate::specs::Reading::word_if, crate::specs::Reading::first, vlog_tree::specs::Lexemes::is_word))]
    pub fn sees_word(&self, word: &[u8]) -> bool
        requires { 1 ≤ length word.now }
        ensures { result ≡ sees_word word.now (first self.now) }
    {
        self.word() == word
    }

    /// Past the next token, which is to be that mark.
    #[tactic(auto, unfolding(crate::specs::Reading::expect))]
    pub fn expect(&mut self, mark: &[u8]) -> Result<(), Stuck>
        requires { 1 ≤ length mark.now }
        ensures { Reads (expect mark.now self.old) result self.new }
    {
        if !self.sees(mark) {
            return Err(Stuck::Wrong);
        }
        self.advance();
        Ok(())
    }

    /// Past the next token, which is to be that word.
    #[tactic(auto, unfolding(crate::specs::Reading::expect_word))]
    pub fn expect_word(&mut self, word: &[u8]) -> Result<(), Stuck>
        requires { 1 ≤ length word.now }
        ensures { Reads (expect_word word.now self.old) result self.new }
    {
        if !self.sees_word(word) {
            return Err(Stuck::Wrong);
        }
        self.advance();
        Ok(())
    }

    /// What an operand goes on with, where it stands at such a level.
    #[tactic(auto, unfolding(crate::specs::Exprs::next_at, crate::specs::Exprs::operator_from))]
    pub(crate) fn next(&self, level: u8) -> Next
        ensures { result ≡ next_at level (first self.now) }
    {
        if level == 0 && self.sees(b"?") {
            return Next::Question;
        }
        match binary_of(self.mark()) {
            Some(op) if level <= level_of(op) => Next::Operator(op),
            _ => Next::End,
        }
    }

    /// The operator in front of a primary, where one may stand at such a level.
    #[tactic(auto, unfolding(crate::specs::Exprs::unary_at))]
    pub(crate) fn unary(&self, level: u8) -> Option<Unary>
        ensures { result ≡ unary_at level (first self.now) }
    {
        if level <= 12 {
            unary_of(self.mark())
        } else {
            None
        }
    }

    /// The mark in the middle of a part select.
    #[tactic(auto, unfolding(crate::specs::Exprs::part_if))]
    pub(crate) fn part(&self) -> Option<Part>
        ensures { result ≡ part_if (first self.now) }
    {
        part_of(self.mark())
    }

    /// Past the next token.
    pub fn advance(&mut self)
        ensures { self.new ≡ drop 1 self.old }
    {
        self.rest = behind(self.bytes, self.places, self.rest);
    }

    /// Past so many tokens that no more than a number are left.
    pub(crate) fn leave(&mut self, left: usize)
        ensures { self.new ≡ drop (length self.old - left) self.old }
    {
        let (_, rest) = self.rest.split_at(self.rest.len().saturating_sub(left));
        self.rest = rest;
    }
}

/// The bytes of a token.
pub fn bytes_of<'t>(bytes: &'t [u8], token: Token) -> &'t [u8]
    requires order { token.from ≤ token.to }
    requires within { token.to ≤ length bytes.now }
    ensures { result.now ≡ take (token.to - token.from) (drop token.from bytes.now) }
{
    &bytes[token.from..token.to]
}

#[tactic(auto, unfolding(crate::specs::Reading::first, crate::specs::Reading::place_if, vlog_tree::specs::Lexemes::lexeme, vlog_tree::specs::Lexemes::place_at))]
fn place_in_front(bytes: &[u8], places: &[Place], rest: &[Token]) -> Place
    requires places { length places.now ≡ length bytes.now + 1 }
    requires within { AreWithin (length bytes.now) rest.now }
    ensures { result ≡ place_if (first (lexemes bytes.now places.now rest.now)) }
{
    match rest {
        [] => Place {
            file: 0,
            line: 0,
            col: 0,
        },
        [token, ..] => places[token.from],
    }
}

#[tactic(auto, unfolding(crate::specs::Reading::first, crate::specs::Reading::mark_if, vlog_tree::specs::Lexemes::lexeme, vlog_tree::specs::Lexemes::mark_in))]
fn mark_in_front<'t>(bytes: &'t [u8], places: &[Place], rest: &[Token]) -> &'t [u8]
    requires within { AreWithin (length bytes.now) rest.now }
    ensures { result.now ≡ mark_if (first (lexemes bytes.now places.now rest.now)) }
{
    match rest {
        [] => &[],
        [token, ..] => match token.kind {
            Kind::Mark => bytes_of(bytes, *token),
            _ => &[],
        },
    }
}

#[tactic(auto, unfolding(crate::specs::Reading::first, crate::specs::Reading::word_if, vlog_tree::specs::Lexemes::lexeme, vlog_tree::specs::Lexemes::word_in))]
fn word_in_front<'t>(bytes: &'t [u8], places: &[Place], rest: &[Token]) -> &'t [u8]
    requires within { AreWithin (length bytes.now) rest.now }
    ensures { result.now ≡ word_if (first (lexemes bytes.now places.now rest.now)) }
{
    match rest {
        [] => &[],
        [token, ..] => match token.kind {
            Kind::Identifier => bytes_of(bytes, *token),
            _ => &[],
        },
    }
}

#[tactic(auto, unfolding(crate::specs::Reading::first, crate::specs::Reading::name_if, vlog_tree::specs::Lexemes::lexeme, vlog_tree::specs::Names::name_of, vlog_tree::specs::Names::name_in, vlog_tree::specs::Lexemes::word_in))]
fn name_in_front<'t>(bytes: &'t [u8], places: &[Place], rest: &[Token]) -> Option<&'t [u8]>
    requires within { AreWithin (length bytes.now) rest.now }
    ensures { option_map (λ b. b.now) result ≡ name_if (first (lexemes bytes.now places.now rest.now)) }
{
    match rest {
        [] => None,
        [token, ..] => match token.kind {
            Kind::Identifier => name_in(bytes_of(bytes, *token)),
            _ => None,
        },
    }
}

#[tactic(auto, unfolding(crate::specs::Reading::first, crate::specs::Reading::number_if, vlog_tree::specs::Lexemes::lexeme, vlog_tree::specs::Numbers::number_of, vlog_tree::specs::Numbers::settled_in, vlog_tree::specs::Lexemes::digits_in))]
fn any_number_in_front(bytes: &[u8], places: &[Place], rest: &[Token]) -> Option<Number>
    requires within { AreWithin (length bytes.now) rest.now }
    ensures { result ≡ number_if (first (lexemes bytes.now places.now rest.now)) }
{
    match rest {
        [] => None,
        [token, ..] => match token.kind {
            Kind::Number => settled_in(bytes_of(bytes, *token)),
            _ => None,
        },
    }
}

#[tactic(auto, unfolding(crate::specs::Plain::mask, crate::specs::Plain::masked, crate::specs::Reading::first, crate::specs::Reading::number_if, vlog_tree::specs::Lexemes::lexeme, vlog_tree::specs::Numbers::number_of, vlog_tree::specs::Numbers::settled_in, vlog_tree::specs::Lexemes::digits_in))]
fn plain_number_in_front(bytes: &[u8], places: &[Place], rest: &[Token]) -> Option<Number>
    requires within { AreWithin (length bytes.now) rest.now }
    ensures { result ≡ number_if (first (map mask (lexemes bytes.now places.now rest.now))) }
{
    match rest {
        [] => None,
        [token, ..] => match token.kind {
            Kind::Number => without_z(bytes_of(bytes, *token)),
            _ => None,
        },
    }
}

#[tactic(auto, unfolding(crate::specs::Plain::seen))]
fn number_in_front(bytes: &[u8], places: &[Place], rest: &[Token], wild: bool) -> Option<Number>
    requires within { AreWithin (length bytes.now) rest.now }
    ensures { result ≡ number_if (first (seen wild (lexemes bytes.now places.now rest.now))) }
{
    if wild {
        any_number_in_front(bytes, places, rest)
    } else {
        plain_number_in_front(bytes, places, rest)
    }
}

/// The number that a text is, if it has no x and no z digit.
#[tactic(auto, unfolding(crate::specs::Plain::masked, vlog_tree::specs::Numbers::settled_in, vlog_tree::specs::Lexemes::digits_in))]
fn without_z(text: &[u8]) -> Option<Number>
    ensures { result ≡ settled_in (digits_in (masked kind.Number text.now) text.now) }
{
    if has_z(text) { None } else { settled_in(text) }
}

fn behind<'t>(bytes: &[u8], places: &[Place], rest: &'t [Token]) -> &'t [Token]
    requires within { AreWithin (length bytes.now) rest.now }
    ensures value { lexemes bytes.now places.now result.now ≡ drop 1 (lexemes bytes.now places.now rest.now) }
    ensures within { AreWithin (length bytes.now) result.now }
{
    match rest {
        [] => rest,
        [_, others @ ..] => others,
    }
}
