//! Process bodies drawn as gates.
//!
//! `specs/Bodies.antt` says, statement by statement, which gates the body of a process without loops is, as `proc_values`
//! says what it is worth; `draw` draws exactly those, and answers the nodes that the bits of the process become.
//! The net: stands on `net_exprs` for the gates of expressions, and on `proc_values` for what bodies are worth.
#![tactic(auto)]

mod body;
mod changes;
mod frame;
mod indices;
mod labels;
mod stroke;
mod strokes;
mod targets;
mod wires;
mod writes;

pub use body::draw;
#[doc(hidden)]
pub use stroke::Stroke;
