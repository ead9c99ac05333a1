//! Widths and signs, and how an operator treats those of its operands.

/// What an expression is besides its value, or what it stands in.
#[derive(Clone, Copy, Debug, PartialEq, Eq)]
pub struct Shape {
    /// The number of bits.
    pub width: u32,
    pub signed: bool,
}

/// How an operator treats its operands (IEEE 1364-2005, 5.4.1).
#[derive(Clone, Copy, Debug, PartialEq, Eq)]
pub enum Family {
    /// Its context is theirs.
    Contextual,
    /// Their context is what they have in common, and the result is one bit.
    Compared,
    /// Each stands by itself, and the result is one bit.
    Alone,
    /// The left one stands in its context, the right one by itself.
    Leading,
}
