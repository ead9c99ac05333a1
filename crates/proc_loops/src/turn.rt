//! What a turn gives, and what all give.

use crate::progress::Progress;
use vlog_const::ConstValue;
use vlog_tree::Stmt;

/// What one turn of a loop gives.
#[derive(Drop)]
pub enum Turn {
    /// The test is false.
    Ended,
    /// The turn would be one too many.
    Full,
    /// The body, in which a turn would have been one too many.
    Cut(Stmt, Progress),
    /// The body, and the variable after the step.
    Made(Stmt, ConstValue, Progress),
}

/// A body without loops.
#[derive(Debug, Drop)]
pub struct Unrolled {
    pub body: Stmt,
    /// How many turns all loops made, fewer than 65,536.
    pub turns: u32,
    /// The widths of the three expressions of each header, once for each time that its loop is executed, as far as 64 bits count.
    pub headers: u64,
    /// Whether another turn was to come: then the body ends there.
    pub is_cut: bool,
}
