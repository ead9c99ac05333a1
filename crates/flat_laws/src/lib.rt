//! What holds of each flat design that modules give: there is at most one below a top, and what it says in the first form
//! is small (`specs/Laws.antt`).
//!
//! Both are laws of definitions, stated as the contracts of functions with nothing to do.
//! Meaning: stands on `vlog_elab` for the flat design and `thin_tree` for the first form. The program's headline rests on
//! the one, its numbers on the other.
#![tactic(auto)]

mod laws;

pub use laws::{flat_designs_are_small, one_flat_design};
