//! Statements, and lists and what may be left out, in front of some tokens.
//!
//! One loop reads every list of pieces (`many`, `commas`, over the trait `Piece`). `stmt`, `target`, `loop_header`,
//! `control_at` and the readers of lists and names give what the reading functions on lexemes give
//! (`specs/Lists.antt`, `Targets.antt`, `Statements.antt`, `Controls.antt`), and leave the cursor there; `proofs/` has that
//! those functions answer what the grammar spells.
//! Reading Verilog: stands on `vlog_expr` for expressions and for the cursor over tokens. The parser of modules reads
//! with it.
#![tactic(auto)]

mod arms;
mod controls;
mod form;
mod header;
mod lists;
mod pieces;
mod stmts;
mod targets;
mod words;

pub use controls::control_at;
pub use form::Form;
pub use header::loop_header;
pub use lists::{Piece, commas, many};
pub use pieces::{Names, Values, Wilds};
pub use stmts::stmt;
pub use targets::target;
pub use words::{ident, label, took, took_word};
