//! The lines of a constraint file in a net: each name is its bit.
//!
//! `bind` answers the lines with the numbers of sources and nodes in place of names, or the first line that has a
//! fault, with its cause (`specs/Names.antt`, `specs/Meaning.antt`, `specs/Claims.antt`, `specs/Binding.antt`).
//! Constraints: stands on `cons_file` for lines, and on `net_view` for nets. The event model is to read what is bound.
#![tactic(auto)]

mod binder;
mod bound;
mod cause;
mod claims;
mod declarations;
mod fault;
mod meaning;
mod named;
mod names;
mod reads;
mod sources;
mod tracks;
mod wanted;

pub use binder::bind;
pub use bound::{Bound, BoundForm, BoundLine, Ports};
pub use fault::BindFault;
pub use reads::read_sources;

#[cfg(test)]
mod small_net;
#[cfg(test)]
mod tests;
