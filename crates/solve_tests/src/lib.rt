//! Clauses, chains and encodings worked by hand, and what the checker, the search and the encoder answer to them.
//!
//! Each public call of `sat_chain`, `sat_core` and `tern_cnf` is made here. They stand apart, so that a crate is proved
//! once and not once more with its tests. No crate stands on this one.
#![tactic(auto)]

#[cfg(test)]
mod checking;
#[cfg(test)]
mod encoding;
#[cfg(test)]
mod models;
#[cfg(test)]
mod searching;
#[cfg(test)]
mod small_net;
