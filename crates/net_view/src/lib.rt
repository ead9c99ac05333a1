//! Nets of gates, as everything above sees them.
//!
//! A `View` is a list of gates over sources (`specs/View.antt`); a `FlopNet` is a view whose sources have names and
//! kinds, with named bits (`specs/FlopNet.antt`). `eval_into` gives each node the ternary value of its gate, and
//! raising sources to X raises nodes (`specs/Values.antt`). `cone` gives the sources that a node's logic reads
//! (`specs/Cone.antt`), a `Slice` is the cones of some nodes as a view of their own
//! (`specs/Slice.antt`), and `pin_order` lists the flops, each after those that its pin reads (`specs/PinOrder.antt`).
//! The net: stands on `rdc_tern` and, for lists, on `rdc_outside`. The event model and every analysis are generic over these traits.
#![tactic(auto)]

mod cones;
mod evaluation;
mod fault;
mod flop_net;
mod gate;
mod laws;
mod pins;
mod queue;
mod slice_ids;
mod slices;
mod view;

pub use cones::cone;
pub use evaluation::eval_into;
pub use fault::{ConeFault, OrderFault};
pub use flop_net::{FlopNet, FlopOf, SrcKind};
pub use gate::Gate;
pub use laws::{one_pin_order, one_valuation, settled_in_settled_out};
pub use pins::pin_order;
pub use slice_ids::{SliceNode, SliceSrc};
pub use slices::Slice;
pub use view::View;
