//! What `run_process` answers to texts worked by hand.
//!
//! A text is lexed, parsed and elaborated; of its first process the printed names of the bits that it assigns are compared, or
//! its fault. They stand apart, so that the crates that they call are proved once and not once more with their tests. No crate
//! stands on this one.
#![tactic(auto)]

#[cfg(test)]
mod assigns;
#[cfg(test)]
mod cases;
#[cfg(test)]
mod lists;
#[cfg(test)]
mod loops;
#[cfg(test)]
mod paths;
#[cfg(test)]
mod reading;
#[cfg(test)]
mod shown;
