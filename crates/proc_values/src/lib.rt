//! What the body of a process is worth.
//!
//! A body without loops makes of a ternary state what each bit that the process assigns becomes (`specs/Bodies.antt`): every
//! assignment as strokes on bits (`specs/Targets.antt`), `if` and `case` as selections of all bits that the process assigns,
//! labels by what they match (`specs/Labels.antt`, `specs/Cases.antt`). `run_body` computes exactly that.
//! Later reads see what is assigned to the bits of `reads` alone: for a process without edges these are its bits; for one with
//! edges, the bits of the variables of its loops, or none where nothing reads one behind its loop.
//! Meaning: stands on `design_form` for values, `design_sizes` for widths, `elab_bits` for which bits targets name, and
//! `proc_cases` for which cases are full. Gates of processes are drawn after it.
#![tactic(auto)]

mod body;
mod cases;
mod changes;
mod contexts;
mod hits;
mod indices;
mod labels;
mod sides;
mod sizes;
mod stroke;
mod strokes;
mod targets;
mod writes;

pub use body::run_body;
#[doc(hidden)]
pub use cases::{is_at, standing};
#[doc(hidden)]
pub use hits::Select;
#[doc(hidden)]
pub use indices::{constant, count, number, part_width};
#[doc(hidden)]
pub use labels::free_in;
#[doc(hidden)]
pub use sizes::case_size;
#[doc(hidden)]
pub use stroke::Stroke;
#[doc(hidden)]
pub use strokes::{fixed_start, reached};
#[doc(hidden)]
pub use targets::{all_bits, low_end, range_of, width_of};
