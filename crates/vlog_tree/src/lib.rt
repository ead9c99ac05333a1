//! The syntax tree of Verilog, and the grammar.
//!
//! The tree is plain data with places. Which list of lexemes spells which tree is a definition, one case a production
//! (`specs/Expressions.antt`, `Statements.antt`, `Items.antt`, `Modules.antt`), and so is how deep a tree is
//! (`specs/Depth.antt`).
//! Reading Verilog: stands on `vlog_lex` for tokens and `sqlite_items` for what holds itself. The parsers build it.
#![tactic(auto)]

mod expr;
mod ident;
mod item;
mod list;
mod module;
mod name;
mod number;
mod operator;
mod port;
mod stmt;

pub use expr::{Expr, Part};
pub use ident::Ident;
pub use item::{
    Assignment, Binding, Block, Connections, Gate, GateKind, Instance, Item, NamedConnection, Net,
};
pub use list::{fitted, sole};
pub use module::{Module, Parameter};
pub use name::Name;
pub use number::{Base, Number};
pub use operator::{Binary, Unary};
pub use port::{Direction, Port, Range, Shape};
pub use stmt::{Arm, Assigns, Control, Edge, Event, Loop, Matching, Stmt};
