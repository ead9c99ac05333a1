//! The expansion of Verilog files: macros, conditionals and includes.
//!
//! `expand` answers the one text that the files have, each byte with its place, or the first fault in the order of the
//! text (`specs/Expansion.antt`, `specs/Answer.antt`). It takes any files and always returns.
//! Reading Verilog: stands on `vlog_items` for what is left to be read, and on `rdc_outside` for the shelf.
#![tactic(auto)]

mod arguments;
mod conditionals;
mod copying;
mod defining;
mod dispatch;
mod expansion;
mod fault;
mod including;
mod kinds;
mod known;
mod laws;
mod levels;
mod loading;
mod macros;
mod outcome;
mod parameters;
mod replacing;
mod steps;
mod texts;
mod using;
mod words;

pub use expansion::expand;
pub use fault::{PreFault, Stopped};
pub use laws::{one_answer, one_text};
