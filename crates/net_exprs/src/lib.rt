//! Expressions lowered to gates.
//!
//! `specs/Lowered.antt` says, form by form, which gates an expression is; `lower` draws exactly those, in a context, and
//! answers their nodes. `specs/Laws.antt` says what they are worth in every ternary state, and `laws.rt` claims it.
//! The net: stands on `net_words` for the gates of operations, and on `design_form` for what expressions are worth.
//! Drivers and processes are drawn with it.
#![tactic(auto)]

mod constants;
mod extensions;
mod forms;
mod laws;
mod lowering;
mod operators;
mod picks;
mod selects;
mod sizes;
mod wired;

pub use laws::{expressions_are_worth, expressions_keep_shapes};
pub use lowering::{lower, lower_alone, lower_within};
#[doc(hidden)]
pub use picks::{Select, hits};
#[doc(hidden)]
pub use sizes::extent;
