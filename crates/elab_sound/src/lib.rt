//! What the expressions of a flat design must meet, beside their names.
//!
//! A select by constants lies in the range of its signal, a number of copies is not negative, and bounds, widths, counts and
//! the operands of `/`, `%` and `**` are constants with a value, each in its context (`specs/Selects.antt`). `sound` answers
//! the first fault of a design, in the order of reading: its drivers, its gates, its processes (`specs/Sound.antt`).
//! Meaning: stands on `design_sizes` for the parts of expressions, and `elab_names` for faults. Elaboration asks it once for
//! a whole design.
#![tactic(auto)]

mod checks;
mod designs;
mod ranges;

pub use designs::sound;
