//! The order in which drawn gates are added to a net.
//!
//! `order` goes from the roots of the bits, in the order of the bits, to all that they need: fan-ins first, left before
//! right, each gate once (`specs/Order.antt`). A leaf reads the root of its bit. Where gates go in a loop there is no
//! order, and the answer is such a loop (`specs/Loops.antt`).
//! The net: stands on `net_gates`. Lowering adds gates to a builder in this order.
#![tactic(auto)]

mod fault;
mod loops;
mod step;
mod walk;

pub use fault::OrderFault;
pub use walk::order;

#[cfg(test)]
mod tests;
