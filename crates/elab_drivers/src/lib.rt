//! What drives the signals of a scope: declared wires, assignments, processes and gates.
//!
//! What is assigned is a wire of the module that is no input port of it (`specs/Targets.antt`); each driver stands in the flat
//! design with printed names and numbers in the place of constants (`specs/Drivers.antt`).
//! Meaning: stands on `elab_names` for expressions and `elab_scopes` for the draft of a scope.
#![tactic(auto)]

mod draft;
mod drivers;
mod gates;
mod targets;

pub use draft::Draft;
pub use drivers::{assign_all, process, wire_all};
pub use gates::gate_all;
pub use targets::assigned;
