//! Drawn gates placed in a net.
//!
//! `place` adds drawn gates to a net, in an order in which each stands behind what it reads, and answers the node of each
//! (`specs/Places.antt`). A leaf of a bit gets the node of the bit's root, a leaf past the bits that of a source. The
//! net folds as it does for every gate that it is given.
//! The net: stands on `net_order` for the order, on `net_core` for the net. Lowering names the bits by these nodes.
#![tactic(auto)]

mod placing;

pub use placing::place;
