//! What names mean in a scope, and expressions, statements and events as a flat design has them.
//!
//! A scope is frames of names, the innermost first (`specs/Meanings.antt`). An expression in a scope has each signal under its
//! printed name and a number in the place of each constant (`specs/Expressions.antt`), and so have targets, statements and
//! events. Meaning: stands on `vlog_tree` for the tree, `vlog_const` for the values of constants and `design_form` for what
//! a signal is. Elaboration of modules asks it for each expression.
#![tactic(auto)]

mod answers;
mod controls;
mod expressions;
mod fault;
mod frame;
mod laws;
mod meaning;
mod numbers;
mod scope;
mod statements;
mod targets;

pub use controls::control_in;
pub use expressions::{constant, constant_within, put_in, within};
pub use fault::ElabFault;
pub use laws::constants_keep_their_worth;
pub use meaning::{Known, Meaning};
pub use numbers::alone;
pub use scope::Scope;
pub use statements::statement_in;
pub use targets::target_in;
