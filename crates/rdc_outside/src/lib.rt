//! The outside: files, standard output, places in a text, and exit statuses.
//!
//! A load answers the named bytes or a counted cause (`specs/Shelf.antt`, `specs/Counts.antt`), a save changes no other
//! file, and `write_all_of` writes all or says how much was written (`specs/Sink.antt`).
//! Ground: stands on nothing. Whatever reads files or writes reports is generic over these traits.
#![tactic(auto)]

mod call_log;
mod disk;
mod faults;
mod list;
mod memory_shelf;
mod memory_sink;
mod outcome;
mod output;
mod pile;
mod reserved;
mod shelving;
mod source;
mod standard_output;
mod transfer;
mod writing;

pub use disk::DiskShelf;
pub use faults::{LoadFault, NewFault, SaveFault, SinkFault};
pub use list::Seq;
pub use memory_shelf::MemShelf;
pub use memory_sink::MemSink;
pub use outcome::Status;
pub use output::Sink;
pub use shelving::Shelf;
pub use source::{Place, Text};
pub use standard_output::OutSink;
pub use writing::{WroteUpTo, write_all_of};

#[cfg(test)]
mod tests;
