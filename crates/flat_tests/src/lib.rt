//! What `elaborate` answers to texts worked by hand.
//!
//! A text is lexed, parsed and elaborated; the printed names of a design's bits are compared, or its fault. They stand apart, so
//! that the crates that they call are proved once and not once more with their tests. No crate stands on this one.
#![tactic(auto)]

#[cfg(test)]
mod bits;
#[cfg(test)]
mod boxes;
#[cfg(test)]
mod chip;
#[cfg(test)]
mod faults;
#[cfg(test)]
mod flat;
#[cfg(test)]
mod instances;
#[cfg(test)]
mod limits;
#[cfg(test)]
mod names;
#[cfg(test)]
mod ranges;
#[cfg(test)]
mod reading;
#[cfg(test)]
mod shown;
