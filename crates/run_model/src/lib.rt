//! The event model: what can happen to a design with resets, and what counts as a disturbance.
//!
//! It says what an event does (`specs/Event.antt`), which events are permitted (`specs/Permitted.antt`), what a run is
//! and when a design is safe (`specs/Safe.antt`). The theorems (`specs/Statements.antt`) are over any machine, and every
//! net with flops has one (`specs/Netlist.antt`); `step_into` takes one step of it (`specs/Step.antt`).
//! The event model: stands on `net_view` and `rdc_tern`. The headline of the program is stated in these words.
#![tactic(auto)]

mod answer;
mod calms;
mod edges;
mod event;
mod netlist;
mod pass;
mod phase;
mod pins;
mod ports;
mod step;
mod theorems;

pub use answer::Stepped;
pub use event::{Event, Levels};
pub use netlist::net_is_machine;
pub use phase::Phase;
pub use step::step_into;
pub use theorems::{
    agreeing_is_safe, clean_is_safe, example_runs, powers_up, progress_begins, rules_hold,
    up_is_one,
};
