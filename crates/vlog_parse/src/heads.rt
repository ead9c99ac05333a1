//! What item begins with a token.

ghost use Rattle.std.specs.Prelude.{◌≡◌};
ghost use Rattle.std.specs.Str.{bytes_eq};
ghost use Rattle.vlog_expr.specs.Reading.{first};
ghost use Rattle.vlog_parse.specs.Items as spec;

use crate::words::sees_name;
use vlog_expr::Cursor;
use vlog_tree::GateKind;

/// What item begins with a token.
#[derive(Clone, Copy, Debug, PartialEq, Eq)]
pub(crate) enum Head {
    Ports,
    Wires,
    Registers,
    Integers,
    Genvars,
    Parameters,
    Constants,
    Assign,
    Gates(GateKind),
    Instances,
    Always,
    Generate,
    For,
    If,
    Case,
    /// No item does.
    Nothing,
}

fn is(word: &[u8], other: &[u8]) -> bool
    ensures { result ≡ bytes_eq word.now other.now }
{
    word == other
}

/// The gate that the word is.
#[tactic(auto, unfolding(crate::specs::Items::gate_in))]
fn gate_in(word: &[u8]) -> Head
    ensures { result ≡ spec.gate_in word.now }
{
    if is(word, b"and") {
        Head::Gates(GateKind::And)
    } else if is(word, b"nand") {
        Head::Gates(GateKind::Nand)
    } else if is(word, b"or") {
        Head::Gates(GateKind::Or)
    } else if is(word, b"nor") {
        Head::Gates(GateKind::Nor)
    } else if is(word, b"xor") {
        Head::Gates(GateKind::Xor)
    } else if is(word, b"xnor") {
        Head::Gates(GateKind::Xnor)
    } else if is(word, b"not") {
        Head::Gates(GateKind::Not)
    } else if is(word, b"buf") {
        Head::Gates(GateKind::Buf)
    } else {
        Head::Nothing
    }
}

/// The construct that begins with the word.
#[tactic(auto, unfolding(crate::specs::Items::construct_in))]
fn construct_in(word: &[u8]) -> Head
    ensures { result ≡ spec.construct_in word.now }
{
    if is(word, b"always") {
        Head::Always
    } else if is(word, b"generate") {
        Head::Generate
    } else if is(word, b"for") {
        Head::For
    } else if is(word, b"if") {
        Head::If
    } else if is(word, b"case") {
        Head::Case
    } else {
        gate_in(word)
    }
}

/// The declaration that begins with the word.
#[tactic(auto, unfolding(crate::specs::Items::declaration_in))]
fn declaration_in(word: &[u8]) -> Head
    ensures { result ≡ spec.declaration_in word.now }
{
    if is(word, b"input") {
        Head::Ports
    } else if is(word, b"output") {
        Head::Ports
    } else if is(word, b"wire") {
        Head::Wires
    } else if is(word, b"reg") {
        Head::Registers
    } else if is(word, b"integer") {
        Head::Integers
    } else if is(word, b"genvar") {
        Head::Genvars
    } else if is(word, b"parameter") {
        Head::Parameters
    } else if is(word, b"localparam") {
        Head::Constants
    } else if is(word, b"assign") {
        Head::Assign
    } else {
        construct_in(word)
    }
}

/// What item begins with the next token.
#[tactic(auto, unfolding(crate::specs::Items::head_of, crate::specs::Items::head_in, crate::specs::Parts::names), using(crate::proofs::HeadLemmas::name_of_word))]
pub(crate) fn head_of(cursor: &Cursor<'_>) -> Head
    ensures { result ≡ spec.head_of (first cursor.now) }
{
    if sees_name(cursor) {
        return Head::Instances;
    }
    declaration_in(cursor.word())
}
