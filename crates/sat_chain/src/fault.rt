//! What the calls answer.

/// What a line that passes is.
#[derive(Clone, Copy, Debug, PartialEq, Eq)]
pub enum Seen {
    /// A clause with a literal.
    Added,
    /// A derived clause without literals: the given clauses have no model.
    Empty,
}

/// Why a line doesn't pass, in the order in which it is tested.
#[derive(Clone, Copy, Debug, PartialEq, Eq)]
pub enum ChainFault {
    /// The text isn't a line.
    BadLine,
    /// A number is no earlier clause's.
    NoClause,
    /// A cited clause doesn't have exactly one variable with the opposite sign in the union before it.
    NoPivot,
    /// The literals aren't exactly those of the last union, ascending.
    NotResolvent,
}

/// Why a clause isn't stored.
#[derive(Clone, Copy, Debug, PartialEq, Eq)]
pub enum AddFault {
    /// No memory for one more clause.
    Memory,
}

/// Why no checker is made.
#[derive(Clone, Copy, Debug, PartialEq, Eq)]
pub enum NewFault {
    /// No memory for a text of so many bytes over so many variables.
    Memory,
}
