//! What elaboration's first calls answer to texts worked by hand.
//!
//! A text is lexed and parsed, and then its first module is asked about. They stand apart, so that the crates that they call
//! are proved once and not once more with their tests. No crate stands on this one.
#![tactic(auto)]

#[cfg(test)]
mod boxes;
#[cfg(test)]
mod decls;
#[cfg(test)]
mod drivers;
#[cfg(test)]
mod faults;
#[cfg(test)]
mod instances;
#[cfg(test)]
mod names;
#[cfg(test)]
mod processes;
#[cfg(test)]
mod reading;
#[cfg(test)]
mod scopes;
#[cfg(test)]
mod shown;
#[cfg(test)]
mod statements;
