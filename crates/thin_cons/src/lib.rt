//! The first form of the constraint file: which ports of a design are clocks, and which are resets.
//!
//! `read_lines` answers the lines that the bytes spell, and refuses exactly the bytes that spell none
//! (`specs/Lines.antt`, `specs/Forms.antt`). `declare` answers the role of each source of a design, and refuses
//! exactly the bytes that give none (`specs/Roles.antt`). Both take any bytes, and always return.
//! Constraints: stands on `thin_form` for designs. The first path of the program reads its lines by it.
#![tactic(auto)]

mod assigner;
mod declarer;
mod fault;
mod judge;
mod laws;
mod line;
mod reader;
mod role;
mod roles;
mod scanner;

pub use declarer::declare;
pub use fault::{ConsFault, LinesFault};
pub use laws::{one_declaration, one_file};
pub use line::Line;
pub use reader::read_lines;
pub use role::Role;
pub use roles::Roles;
