//! A gate, over the ids of nodes and sources.

/// What a node is. `N` names a node, `S` a source.
#[derive(Clone, Copy, Debug, PartialEq, Eq)]
pub enum Gate<N, S> {
    Const(bool),
    Source(S),
    Not(N),
    And(N, N),
    Or(N, N),
    Xor(N, N),
    /// `Pick(pin, a, b)` is `a` where `pin` is 1, `b` where it is 0, else what they agree on, or X.
    Pick(N, N, N),
    /// `Lift(pin, value, reset)` is `value` where `pin` is 0, else what it and the reset value agree on, or X.
    Lift(N, N, bool),
}
