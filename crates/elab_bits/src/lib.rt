//! Which bits of a flat design are driven and which are read, and the faults of its bits.
//!
//! A touch is a bit by its number, at a place. Each part of a design adds its touches to a list (`specs/Parts.antt`,
//! `specs/Processes.antt`), and `judge` names the first bit that is driven twice, or read and not driven
//! (`specs/Judgements.antt`).
//! Meaning: stands on `design_form` for the bits, `proc_loops` for bodies without loops, `vlog_const` for constant indices and
//! `elab_names` for faults. Elaboration asks it of each design.
#![tactic(auto)]

mod bodies;
mod drivers;
mod events;
mod gates;
mod inputs;
mod judging;
mod laws;
mod pins;
mod processes;
mod readers;
mod selects;
mod sets;
mod tables;
mod targets;
mod touch;

pub use drivers::{drives_of_driver, reads_of_driver};
pub use gates::{drives_of_gate, reads_of_gate};
pub use inputs::Inputs;
pub use judging::judge;
pub use laws::{order_keeps_members, selects_go_by_index};
pub use pins::{drives_of_boxes, drives_of_ports, reads_of_boxes};
pub use processes::{drives_of_process, reads_of_process};
pub use touch::Touch;
