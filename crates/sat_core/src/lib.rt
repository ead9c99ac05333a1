//! The search for a model of clauses, or for a derivation of the empty clause from them.
//!
//! `solve` answers a model, or a chain that the checker passes, or with a budget a chain of as many new clauses
//! (`specs/Answers.antt`). It always ends, and nobody has to trust it: its chains are lines of `sat_chain`.
//! Deciding: stands on `sat_chain` and `rdc_ids`. The questions of the problems and of kept clauses are asked here.
#![tactic(auto)]

mod answers;
mod derive;
mod path;
mod scan;
mod solver;

pub use answers::{Answer, SolveFault};
pub use solver::solve;
