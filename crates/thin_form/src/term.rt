//! What an expression computes, its names by number.

/// The value of a source or a wire, by number, or what is done to the one or two values before it.
#[derive(Clone, Copy)]
pub(crate) enum Term {
    Source(u32),
    Wire(u32),
    Not,
    And,
    Or,
}
