//! Nets, runs and constraint files worked by hand: cones, slices, each kind of event, each form of line.
//!
//! Each public call of `net_view`, `run_model` and `cons_file` is made here. They stand apart, so that a crate is proved
//! once and not once more with its tests. No crate stands on this one.
#![tactic(auto)]

#[cfg(test)]
mod cones;
#[cfg(test)]
mod example;
#[cfg(test)]
mod lines;
#[cfg(test)]
mod tree;
