//! From the text of a design to one flat design.
//!
//! `front` answers the design below a top module, or the fault of the first stage that fails: lexing, parsing, elaboration
//! (`specs/Stages.antt`). Which flops a design has is still to come.
//! Meaning: stands on `vlog_lex`, `vlog_parse` and `vlog_elab`. The program is to ask it for the design of its files.
#![tactic(auto)]

mod fault;
mod stages;

pub use fault::FrontFault;
pub use stages::front;
