//! Process bodies without loops.
//!
//! `unrolled` gives a body in which each `for` is the turns that it makes, a number standing in the place of each running
//! variable (`specs/Unrolled.antt`), or says why there is none. `written` puts constants into one expression, `copied`
//! copies one. What each such body keeps to is in `specs/Laws.antt`.
//! Meaning: stands on `vlog_tree` for statements, `vlog_const` for constants and `design_form` for what is written in
//! their place. The checks of drivers and the reading of processes stand on it.
#![tactic(auto)]

mod copying;
mod fault;
mod firsts;
mod header_values;
mod headers;
mod laws;
mod names;
mod pieces;
mod progress;
mod putting;
mod scope;
mod scopes;
mod turn;
mod unrolling;
mod writing;

pub use copying::copied;
pub use fault::LoopFault;
pub use laws::{no_loop_is_left, other_bodies_stay, turns_are_counted};
pub use turn::Unrolled;
pub use unrolling::unrolled;
pub use writing::written;
