//! Elaboration: from a list of modules to one flat design.
//!
//! `elaborate` gives the design below a top, under hierarchical names, or the first fault that it finds (`specs/Flat.antt`). What
//! goes down the hierarchy is `elab_tree`'s; here the whole is looked at: its signals in name order (`specs/Orders.antt`), one
//! bit a printed name (`specs/Bits.antt`), sound expressions (`elab_sound`), its weight and the drivers of its bits
//! (`specs/Tallies.antt`).
//! Meaning: the crate that others ask for a design; it stands on all of `elab_*`.
#![tactic(auto)]

mod elaborating;
mod once;
mod ordering;
mod parts;
mod tally;

pub use elaborating::elaborate;
