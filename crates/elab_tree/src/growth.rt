//! A flat design that grows.

use elab_items::Plan;

/// The flat design so far.
#[derive(Drop)]
pub struct Growth {
    pub plan: Plan,
    /// How many instances and declared bits there are, the top not counted.
    pub size: u32,
}
