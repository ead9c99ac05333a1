//! The expression in front of some tokens.
//!
//! `parse_expr` answers the one expression that the tokens begin with and the next token can't go on with, and refuses
//! exactly the tokens that begin with none, naming a token such that no expression begins so (`specs/Begins.antt`). It
//! always returns, and its stack is as deep as the tree, which is less than 256.
//! `Cursor`, `plain_expr` and `any_expr` are for readers of what stands round an expression, and give what the reading
//! functions on lexemes give (`specs/Exprs.antt`, `specs/Plain.antt`).
//! Reading Verilog: stands on `vlog_tree` for the tree and the grammar. The parser of modules reads with it.
#![tactic(auto)]

mod cursor;
mod fault;
mod grammar;
mod laws;
mod measured;
mod names;
mod numbers;
mod operators;
mod parser;
mod plain;
mod refused;
mod stuck;

pub use cursor::{Cursor, bytes_of};
pub use fault::ExprFault;
pub use laws::one_expression;
pub use parser::{parse_expr, place_of, wrong_at};
pub use plain::{any_expr, plain_expr};
pub use refused::is_refused;
pub use stuck::Stuck;
