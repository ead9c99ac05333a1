//! The constraint file: the lines that a user writes, one form each.
//!
//! `read_constraints` answers the lines of a text with their numbers and forms, or says where the first fault stands
//! (`specs/Forms.antt`, `specs/File.antt`). It takes any text below 4 GiB, and always returns.
//! Constraints: stands on nothing. `cons_bind` gives the names of the lines their bits.
#![tactic(auto)]

mod fault;
mod file;
mod forms;
mod laws;
mod line;
mod scanner;
mod words;

pub use fault::ConsFault;
pub use file::read_constraints;
pub use laws::one_file;
pub use line::{Line, LineForm};
