//! The gates of operations on words, drawn in a list that never folds.
//!
//! Each call draws exactly the gates that its definition says (`specs/Builds.antt`, then a file for each family), and
//! answers their nodes; `Full` is answered only where they don't fit. In every list that begins with them, and in
//! every ternary state, the nodes are worth what `rdc_tern` makes of the values of the operands (`laws.rt`).
//! Words are lists of nodes, least significant bit first.
//! The net: stands on `net_gates` and `rdc_tern`. Lowering draws expressions with it.
#![tactic(auto)]

mod bits;
mod comparisons;
mod laws;
mod products;
mod reductions;
mod shifts;
mod sums;
mod words;

pub use bits::{Bitwise, bit, mux, put};
pub use comparisons::{eq, lt, lt_signed};
pub use laws::{
    bits_are_worth, comparisons_are_worth, gates_are_worth, reductions_are_worth, shifts_are_worth,
    sums_are_worth, words_are_worth,
};
pub use products::mul;
pub use reductions::{all, any, parity};
#[doc(hidden)]
pub use shifts::Toward;
pub use shifts::{sar, shl, shr};
pub use sums::{add, neg, sub};
pub use words::{each, inverted, select};
