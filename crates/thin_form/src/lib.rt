//! The first form of source: wires, gates and flops with asynchronous resets, over any hierarchy.
//!
//! `read` answers the design that a flat design says in the form, and refuses exactly the flat designs that are not of it
//! (`specs/Source.antt`).
//! Meaning: stands on `design_form` for the flat design and `thin_tree` for what it says. The program reads designs by it.
#![tactic(auto)]

mod assembly;
mod assigned;
mod builder;
mod controls;
mod declarations;
mod entry;
mod gates;
mod kind;
mod names;
mod netlist;
mod ordering;
mod reader;
mod resolver;
mod rules;
mod term;
mod wiring;

pub use kind::{Bit, Flop, Kind, Node};
pub use netlist::Netlist;
pub use reader::{one_design, read};
pub use thin_tree::FormFault;
