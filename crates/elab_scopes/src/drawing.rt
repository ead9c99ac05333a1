//! What elaboration draws up of a scope.

use crate::placed::Placed;
use elab_names::Scope;

/// The names of a scope, and the signals of the flat design so far, in the order of their declarations.
#[derive(Drop)]
pub struct Drawing {
    pub scope: Scope,
    pub signals: Vec<Placed>,
}
