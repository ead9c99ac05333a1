//! The flat design, and what an expression is worth in it.
//!
//! A design is plain data (`Parts`): signals, drivers, processes, gates and black boxes, whose expressions name signals by
//! their printed names. Its bits are numbered from 0 in the byte order of their names (`specs/Numbers.antt`). `eval` gives an
//! expression's value in a ternary state, gate by gate (`specs/Values.antt`, `specs/Gates.antt`, `specs/Selects.antt`).
//! Meaning: stands on `rdc_tern` for words, `vlog_tree` for expressions and `vlog_const` for widths, signs and constants.
//! Elaboration makes the design; process bodies, flops and the net are read from it.
#![tactic(auto)]

mod constants;
mod design;
mod evaluator;
mod extent;
mod extents;
mod fault;
mod laws;
mod name_table;
mod naming;
mod operators;
mod parts;
mod seen;
mod selects;
mod signal;
mod sizes;
mod start;
mod tables;
mod words;

pub use design::Design;
pub use evaluator::{eval, eval_within};
pub use extent::Extent;
pub use fault::{DesignFault, EvalFault};
pub use laws::{
    values_agree_with_constants, values_are_monotone, values_have_widths, values_settle,
};
pub use parts::{BlackBox, BoxPort, Driver, DriverKind, GateUse, Parts, Process, Side, TopPort};
pub use signal::{Bounds, Signal, SignalKind};
pub use sizes::{operand_size, operand_sizes, size_of};
