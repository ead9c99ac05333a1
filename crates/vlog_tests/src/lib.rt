//! What the crates that read Verilog answer to texts worked by hand from the rules.
//!
//! Each public call of theirs is made here. They stand apart, so that a crate is proved once and not once more with its
//! tests. No crate stands on this one.
#![tactic(auto)]

#[cfg(test)]
mod expanding;
#[cfg(test)]
mod expressions;
#[cfg(test)]
mod lexing;
#[cfg(test)]
mod names;
#[cfg(test)]
mod reading;
#[cfg(test)]
mod shown_expr;
#[cfg(test)]
mod shown_stmt;
#[cfg(test)]
mod statements;
