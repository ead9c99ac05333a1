//! The hierarchy below a top module, as one flat design.
//!
//! An instance is its module's own part under its parameters and its prefix, and then the instances within it
//! (`specs/Hierarchy.antt`). A module may not stand within itself, instances nest 255 deep at most, and a design has fewer
//! than 1,048,576 instances and declared bits together (`specs/Sizes.antt`), so a call ends.
//! Meaning: stands on `elab_items` for the own part of a module. `vlog_elab` looks at the whole that comes out.
#![tactic(auto)]

mod growth;
mod hierarchy;
mod size;
mod top;

pub use growth::Growth;
pub use top::{Top, grown_from, top_of, top_ports};
