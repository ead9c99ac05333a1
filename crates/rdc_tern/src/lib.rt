//! Ternary values: 0, 1, and X for a signal that has not settled; and words of them, least significant bit first.
//!
//! Each gate is Kleene's table (`specs/Kleene.antt`), and an input raised to X leaves the output as it was or raises
//! it to X (`specs/Monotone.antt`); the algebra that optimisers may use is in `specs/Algebra.antt`. Each operation on
//! words is its gates (`specs/Words.antt`, `specs/Shifts.antt`), keeps the same order, and on settled words is that
//! of numbers modulo 2^width (`specs/WordLaws.antt`).
//! Ground: stands on nothing. The net and the event model compute with it.
#![tactic(auto)]

mod comparisons;
mod laws;
mod shifts;
mod sums;
mod value;
mod word_laws;

pub use comparisons::{all, any, eq, lt, lt_signed, parity};
pub use laws::{join_is_least, kleene_algebra, operations_are_monotone, selection_of_equals};
pub use shifts::{sar, shl, shr};
pub use sums::{WordFault, add, mul, neg, sub};
pub use value::Tern;
pub use word_laws::{
    shifts_are_numbers, shifts_move_words, word_operations_are_monotone,
    word_operations_keep_width, word_operations_settle, words_are_numbers,
    words_compare_as_numbers,
};

#[cfg(test)]
mod tests;
#[cfg(test)]
mod word_tests;
