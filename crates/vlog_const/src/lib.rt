//! Constant expressions of Verilog: their widths, their signs and their values.
//!
//! Widths and signs are one definition, for constants and for signals alike (`specs/Widths.antt`); the value of a constant
//! is what `specs/Constants.antt` says, to 128 bits, or a fault at its place. Each part of an expression is visited once:
//! what an operator gives before its context is known is kept as a term, which is computed once the context is.
//! Meaning: stands on `vlog_tree` for expressions. Elaboration asks it for parameters, bounds and counts.
#![tactic(auto)]

mod answer;
mod constants;
mod env;
mod operand;
mod operators;
mod selects;
mod shape;
mod term;
mod whole;
mod words;

pub use answer::{ConstFault, ConstValue};
pub use constants::{value, value_in, value_within};
pub use env::Env;
pub use operators::{family, is_division, is_power, operand_family};
pub use shape::{Family, Shape};
pub use whole::Whole;
