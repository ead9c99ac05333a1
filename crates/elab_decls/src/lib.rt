//! Which names a scope of a module declares, and as what.
//!
//! A scope is the body of a module or of a generate block. Its declarations are read in the order of the text, those of the
//! module's head first (`specs/Mentions.antt`); a name is declared once, but for a port that the head only names: an item
//! gives it a direction, and another may declare its net or register (`specs/Entries.antt`).
//! Meaning: stands on `vlog_tree` for modules. Elaboration asks it before any expression is looked at.
#![tactic(auto)]

mod entry;
mod fault;
mod mention;
mod naming;
mod reader;
mod table;

pub use entry::{Entry, Form};
pub use fault::DeclFault;
pub use mention::{Mention, Sort};
pub use naming::Naming;
pub use reader::{declared, last_after};
pub use table::Entries;
