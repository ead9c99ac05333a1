//! The modules that the tokens of a text spell.
//!
//! `parse` answers the one list of modules that the tokens spell, and refuses exactly the tokens that spell none, naming a
//! token such that no list of modules begins so (`specs/Begins.antt`). It always returns, and its stack is as deep as
//! the tree, which is less than 256.
//! Reading Verilog: stands on `vlog_tree` for the tree and the grammar, on `vlog_expr` for expressions and the cursor,
//! and on `vlog_stmt` for statements. What elaborates a design reads its tree.
#![tactic(auto)]

mod arms;
mod cuts;
mod declarations;
mod fault;
mod gates;
mod heads;
mod items;
mod laws;
mod lists;
mod modules;
mod parser;
mod parts;
mod stop;
mod words;

pub use fault::ParseFault;
pub use laws::one_tree;
pub use parser::parse;
