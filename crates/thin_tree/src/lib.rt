//! The first form of source: wires, gates and flops with asynchronous resets, over any hierarchy.
//!
//! `read` answers what a flat design says in the form, and refuses exactly the designs that are not of it (`specs/Form.antt`).
//! Clocks and resets may go down the hierarchy by copies; they stand at their roots (`specs/Copies.antt`).
//! Meaning: stands on `design_form` for the flat design. `thin_form` makes a netlist of what it says.
#![tactic(auto)]

mod expressions;
mod fault;
mod items;
mod names;
mod places;
mod reader;
mod roots;
mod statements;
mod steps;
mod tree;

pub use fault::FormFault;
pub use reader::read;
pub use steps::{Expression, Step};
pub use tree::{Assign, Class, Declared, Module, Process};
