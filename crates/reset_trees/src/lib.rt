//! The reset trees of a net with flops.
//!
//! `trace` answers the pin order and the cones of the pins, or why a net has no such trees (`specs/Trees.antt`).
//! `reset_domains` answers each declared reset with the flops that it can reset (`specs/Domain.antt`).
//! `edge_marks` and `calm_marks` answer the edges and calms of flops, each with what structure alone says of it
//! (`specs/Same.antt`, `specs/Problems.antt`).
//! The event model: stands on `net_view` for nets, on `cons_bind` for what data and pins read.
#![tactic(auto)]

mod answers;
mod calms;
mod clocks;
mod cone;
mod direct;
mod domain;
mod edges;
mod fault;
mod graph;
mod levels;
mod marks;
mod naming;
mod pins;
mod reach;
mod same;
mod tables;
mod tracing;
mod trees;

pub use answers::{DomainOf, Mark, Marked};
pub use domain::reset_domains;
pub use fault::TreeFault;
pub use marks::{calm_marks, edge_marks};
pub use tracing::trace;
pub use trees::{PinCone, Trees};

#[cfg(test)]
mod small_net;
#[cfg(test)]
mod tangled_net;
#[cfg(test)]
mod tests;
