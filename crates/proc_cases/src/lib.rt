//! Which `case` statements have no path past them, though they have no `default`.
//!
//! Such a `case` is full: what it selects by is compared at 12 bits at most, its labels are constant, and each value of so many
//! bits matches one of them (`specs/Full.antt`). In `casez` the positions of z digits don't count (`specs/Masks.antt`).
//! Meaning: stands on `design_form` and `design_sizes` for widths, `vlog_const` for labels. What reads the paths and the values
//! of process bodies asks it.
#![tactic(auto)]

mod full;
mod masks;
mod patterns;
mod sizes;
mod values;

pub use full::is_full;
pub use masks::mask_of;
