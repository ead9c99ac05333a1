//! The gate net: built gate by gate, and finished as a net with flops.
//!
//! `NetBuilder::add` gives each gate a node that is worth what the gate is, in every ternary state (`HasValue` of
//! `specs/Folds.antt`): a node that is there, where a constant, a double negation, `a and a` or `a or a` folds, or a
//! new one. Sources, kinds and named bits are as they were put (`specs/Net.antt`), and `finish` gives the same net as
//! a `FlatNet`, which is a `FlopNet`. Nodes and sources have ids of types of their own, and stand as 32-bit numbers.
//! The net: stands on `net_view`, and on `rdc_ids` for ids. Lowering builds with it.
#![tactic(auto)]

mod bit_table;
mod builder;
mod fault;
mod flat;
mod folds;
mod ids;
mod laws;
mod names;
mod parts;

#[doc(hidden)]
pub use bit_table::{BitTable, Place};
pub use builder::NetBuilder;
pub use fault::NetFault;
pub use flat::FlatNet;
#[doc(hidden)]
pub use folds::Made;
pub use ids::{Node, NodeTag, Src, SrcTag};
pub use laws::values_stay;
#[doc(hidden)]
pub use names::Names;
#[doc(hidden)]
pub use parts::Parts;
