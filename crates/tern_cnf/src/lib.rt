//! A net's ternary states as clauses.
//!
//! `encode` gives two variables to each node, that it may be 1 and that it may be 0, and writes the clauses of
//! `specs/Rails.antt` in their order. Their models are exactly the ternary states that meet the question
//! (`specs/States.antt`).
//! Deciding: stands on `net_view`, `rdc_tern` and `sat_chain`. Problems are asked of a solver in these clauses.
#![tactic(auto)]

mod encoder;
mod fault;
mod laws;
mod question;
mod rows;
mod sums;
mod writer;

pub use encoder::encode;
pub use fault::EncodeFault;
pub use laws::{clauses_are_equations, models_are_states};
pub use question::{ClauseList, NodeList, Question};
