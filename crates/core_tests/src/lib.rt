//! Gate nets worked by hand: what folds, what stays, and a net with a flop that is built and read back.
//!
//! Each public call of `net_core` is made here. It stands apart, so that the crate is proved once and not once more with
//! its tests. No crate stands on this one.
#![tactic(auto)]

#[cfg(test)]
mod building;
#[cfg(test)]
mod built;
