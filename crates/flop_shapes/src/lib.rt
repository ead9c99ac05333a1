//! What the processes of a flat design are, by their events and bodies (IEEE 1364.1-2002).
//!
//! `shape_of` tells a combinational process, one with a clock, and one with a clock and an asynchronous reset, whose body is
//! `if (test) .. else ..` with a test of the reset (`specs/Shapes.antt`, `specs/Tests.antt`); any other is refused, with the
//! reason at the process's place.
//! Meaning: stands on `design_form` for the design, and `vlog_const` for the indices of bits. Flops are read from its answer.
#![tactic(auto)]

mod bits;
mod bodies;
mod fault;
mod form;
mod processes;
mod reference;
mod tests;

pub use fault::ShapeFault;
pub use form::ProcessShape;
pub use processes::shape_of;
