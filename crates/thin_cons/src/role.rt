//! What a source of the design is declared to be.

/// What the file says of a source.
#[derive(Clone, Copy, Debug, PartialEq, Eq)]
pub enum Role {
    /// No line names it: a data input, or a register.
    Free,
    /// A clock.
    Clock,
    /// A reset, asserted high where the flag is true, else low.
    Reset(bool),
}
