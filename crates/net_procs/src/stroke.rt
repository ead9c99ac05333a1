//! One bit of a write.

use net_gates::Node;

/// A bit becomes `mux(hit, value, what it is)`, or the value where nothing has to hold.
#[derive(Clone, Copy)]
pub struct Stroke {
    pub hit: Option<Node>,
    pub bit: u32,
    pub value: Node,
}
