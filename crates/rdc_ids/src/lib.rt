//! Typed ids: numbers that say of which list they are.
//!
//! An id is a number to contracts, and a list of its kind is the list of its entries: `get` gives the entry of its
//! id, `push` appends and answers the old length, and `try_id` gives an id exactly for the numbers below the length.
//! Ground: stands on nothing. Nodes, flops and clauses are told apart by the tags of their ids.
#![tactic(auto)]

mod fault;
mod id;
mod id_slice;
mod id_vec;

pub use fault::PushFault;
pub use id::Id;
pub use id_slice::IdSlice;
pub use id_vec::IdVec;

#[cfg(test)]
mod tests;
