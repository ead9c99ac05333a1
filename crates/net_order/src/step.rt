//! The steps of a walk, and the marks of gates.

/// A step that is still to do.
#[derive(Clone, Copy, Debug, PartialEq, Eq)]
pub(crate) enum Step {
    /// To go to a gate.
    Visit(u32),
    /// To leave a gate: all that it reads was left before.
    Leave(u32),
}

/// How far the walk is at a gate.
#[derive(Clone, Copy, Debug, PartialEq, Eq)]
pub(crate) enum Mark {
    /// It was not met.
    New,
    /// It is entered, and not left.
    Open,
    /// It is left.
    Done,
}
