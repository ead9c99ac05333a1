//! The checker of derived clauses.
//!
//! `Checker::line` answers each line by `specs/Answer.antt`, and after `Empty` no assignment makes the given clauses
//! true, whoever wrote the lines (`specs/Refutes.antt`). It never searches, and shares no type with a solver.
//! Deciding: stands on `rdc_ids`. The solver's derivations and a certificate's sections are lines of this form.
#![tactic(auto)]

mod chain;
mod checker;
mod clause_lines;
mod clauses;
mod fault;
mod judge;
mod lists;
mod marks;
mod resolution;
mod words;

pub use chain::{Chain, ChainLine};
pub use checker::Checker;
pub use clauses::{Clause, Clauses};
pub use fault::{AddFault, ChainFault, NewFault, Seen};
