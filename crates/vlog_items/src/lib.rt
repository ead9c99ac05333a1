//! What is left to be read, as one list of items.
//!
//! A `Reader` shows the bytes of open files and replacements, the ends of files, and the files still to come, as one list
//! in which every byte has its place (`specs/Items.antt`). It goes on by one item, or puts a file or a replacement in
//! front of what follows (`specs/Stack.antt`).
//! Reading Verilog: stands on `rdc_outside` for places. The expansion reads through it.
#![tactic(auto)]

mod classes;
mod frames;
mod looking;
mod modes;
mod opening;
mod reading;
mod stepping;

pub use classes::{Class, letter};
pub use looking::Ahead;
pub use modes::Mode;
pub use reading::Reader;
