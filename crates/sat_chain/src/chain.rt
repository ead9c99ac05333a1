//! A derivation, as plain data.

use crate::clauses::Clause;
use rdc_ids::Id;

/// A derived clause, and the clauses that it comes from, in the order in which they are resolved.
#[derive(Drop)]
pub struct ChainLine {
    pub from: Vec<Id<Clause>>,
    pub lits: Vec<i32>,
}

/// Derived clauses, each from clauses before it. The first has the id behind those of the given clauses.
#[derive(Drop)]
pub struct Chain {
    pub lines: Vec<ChainLine>,
}
