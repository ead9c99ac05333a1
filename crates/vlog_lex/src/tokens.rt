//! Tokens: what kind each is, and where it stands.

/// What a token is. A keyword is an identifier.
#[derive(Clone, Copy, Debug, PartialEq, Eq)]
pub enum Kind {
    Identifier,
    Number,
    Str,
    Mark,
}

/// A token, by the bytes that it takes: from the first up to, and without, the last.
#[derive(Clone, Copy, Debug, PartialEq, Eq)]
pub struct Token {
    pub kind: Kind,
    pub from: usize,
    pub to: usize,
}
