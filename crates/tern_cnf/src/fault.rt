//! Why no clauses are made.

/// Why `encode` gives up.
#[derive(Clone, Copy, Debug, PartialEq, Eq)]
pub enum EncodeFault {
    /// No memory for the clauses.
    Memory,
}
