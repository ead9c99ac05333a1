//! What generate constructs choose: whether the test of a generate `if` or `for` is true, and which arm of a generate `case`
//! is taken.
//!
//! A test and a label are constant expressions in a scope (`specs/Choices.antt`). The first arm with a label that is equal to
//! the selector is taken, all compared in the width and by the sign of them together, or else the one without labels.
//! Meaning: stands on `elab_names` for constants in a scope and `vlog_const` for their values. `elab_items` asks it at each
//! generate construct.
#![tactic(auto)]

mod choices;

pub use choices::{chosen, is_true};
