//! Tokens of a Verilog text.
//!
//! `lex` answers the one list of tokens that the text is, and refuses exactly the texts that have none, each at the
//! byte at which it is stuck (`specs/Tokens.antt`). It takes any bytes, and always returns.
//! Reading Verilog: stands on `rdc_outside` for texts and places. The parsers read its tokens.
#![tactic(auto)]

mod attribute;
mod bytes;
mod comments;
mod fault;
mod lexer;
mod numbers;
mod piece;
mod tokens;
mod words;

pub use fault::LexFault;
pub use lexer::{lex, one_list};
pub use tokens::{Kind, Token};
