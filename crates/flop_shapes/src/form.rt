//! What a process is.

use vlog_tree::{Event, Stmt};

/// What a process is.
#[derive(Clone, Copy)]
pub enum ProcessShape<'a> {
    /// It follows what it reads.
    Combinational,
    /// It follows one edge.
    Clocked {
        clock: &'a Event,
        body: &'a Stmt,
    },
    /// It follows the edge of a clock, and that of a reset.
    Reset {
        clock: &'a Event,
        reset: &'a Event,
        /// Whether the reset acts at 1.
        high: bool,
        /// What is done while the reset acts.
        reset_part: &'a Stmt,
        /// What is done at the clock.
        clocked_part: &'a Stmt,
    },
}
