//! Numbers (IEEE 1364-2005, 3.5.1), in this profile: of 1 to 128 bits, and without x digits.

/// The radix that a number is written in.
#[derive(Clone, Copy, Debug, PartialEq, Eq)]
pub enum Base {
    Binary,
    Octal,
    Decimal,
    Hexadecimal,
}

/// What a number is worth.
#[derive(Clone, Copy, Debug, PartialEq, Eq)]
pub struct Number {
    /// Whether a size is written.
    pub sized: bool,
    pub signed: bool,
    pub base: Base,
    /// The number of bits, 1 to 128: the size, or 32.
    pub width: u32,
    /// The bits, of which those of z digits are 0.
    pub bits: u128,
    /// The bits of z digits.
    pub z: u128,
}
