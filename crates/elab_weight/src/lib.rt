//! The weight of a flat design.
//!
//! A design weighs what its instances, its bits and the parts of its expressions weigh together (`specs/Weights.antt`). One
//! that weighs 1,048,576 or more is refused where that is reached. The calls add one thing after another to a weight so far,
//! so that no more than one process stands without its loops at a time.
//! Meaning: stands on `design_sizes` for the parts of expressions and `proc_loops` for processes without loops.
#![tactic(auto)]

mod choices;
mod drivers;
mod laws;
mod limits;
mod numbers;
mod parts;
mod reaches;
mod targets;
mod terminals;

pub use drivers::{weigh_bits, weigh_driver, weigh_gate, weigh_process};
pub use laws::endings_count;
