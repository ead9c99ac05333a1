//! Gates of words worked by hand: two words of two bits, and what each operation is worth in a few states.
//!
//! Each public call of `net_words` is made here. It stands apart, so that the crate is proved once and not once more with
//! its tests. No crate stands on this one.
#![tactic(auto)]

#[cfg(test)]
mod operations;
#[cfg(test)]
mod reading;
