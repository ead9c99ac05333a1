//! What `vlog_parse` answers to texts worked by hand from the grammar.
//!
//! It stands apart, so that the crate is proved once and not once more with its tests. No crate stands on this one.
#![tactic(auto)]

#[cfg(test)]
mod modules;
#[cfg(test)]
mod sample;
#[cfg(test)]
mod shown;
#[cfg(test)]
mod shown_parts;
