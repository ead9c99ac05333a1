//! Gates in one list, as they are drawn.
//!
//! `GateList::add` puts a gate behind those that are there and answers its node: nothing folds, and nothing is shared.
//! A source is a leaf: the bit of a design with its number, which may stand in the list many times. Each gate reads
//! nodes before it (`specs/Gates.antt`), and there are 16,777,216 of them at most.
//! The net: stands on `net_view`, and on `rdc_ids` for ids. Words are drawn with it, before a net is built.
#![tactic(auto)]

mod fault;
mod list;

pub use fault::GateFault;
pub use list::{GateList, Node, NodeTag};
