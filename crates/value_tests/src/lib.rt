//! What constants and expressions are worth, worked by hand from IEEE 1364-2005, clause 5.
//!
//! Each public call of `vlog_const` and `design_form` is made here. They stand apart, so that a crate is proved once and
//! not once more with its tests. No crate stands on this one.
#![tactic(auto)]

#[cfg(test)]
mod constants;
#[cfg(test)]
mod words;
