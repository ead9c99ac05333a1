//! What elaboration draws up.

use design_form::{Driver, GateUse, Process};
use elab_scopes::Drawing;

/// The names of a scope, and the flat design so far, each list in the order of elaboration.
#[derive(Drop)]
pub struct Draft {
    pub drawing: Drawing,
    pub drivers: Vec<Driver>,
    pub processes: Vec<Process>,
    pub gates: Vec<GateUse>,
}
