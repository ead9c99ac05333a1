//! The parts of expressions and statements of a flat design, each with the width and the sign in which it stands.
//!
//! An expression by itself has a width and a sign; where it stands in another one it has those that its context hands down
//! (`specs/Sizes.antt`). A call lists the parts behind those that are there, in the order of reading, so what judges or weighs
//! a design goes along one list. Of an expression that is constant each part is told to be.
//! Meaning: stands on `design_form`. The checks and the weight of a design are read from it.
#![tactic(auto)]

mod naming;
mod sizing;
mod statements;
mod walk;

pub use naming::has_name;
pub use sizing::Sizing;
pub use statements::{put_assignment, put_statement, put_target};
pub use walk::{put_alone, put_within};
