//! What a step asks for.

/// What a step asks for.
#[derive(Debug, Drop)]
pub(crate) enum Outcome {
    /// The next step.
    GoesOn,
    /// That the named file is loaded.
    Loads(String),
}
