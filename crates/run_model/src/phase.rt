//! What the reset of a flop does.

/// What a flop's pin does at one moment. A flop without a pin is as one whose pin is settled inactive.
#[derive(Clone, Copy, Debug, PartialEq, Eq)]
pub enum Phase {
    /// Settled at the inactive level: the flop is out of reset.
    Inactive,
    /// Settled at the active level: the flop is in reset.
    Active,
    /// X.
    Unsure,
}
