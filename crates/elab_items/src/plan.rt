//! What elaboration has found of a module.

use design_form::BlackBox;
use elab_decls::Entries;
use elab_drivers::Draft;
use elab_scopes::Given;
use rdc_outside::{Place, Seq};

/// An instance that is still to be elaborated.
#[derive(Drop)]
pub struct Pending {
    /// The module's place in the list of modules.
    pub position: usize,
    /// What goes before its names.
    pub prefix: Seq<u8>,
    pub given: Given,
    /// The instance's.
    pub place: Place,
}

/// The flat design so far, and the instances that are still to be elaborated.
#[derive(Drop)]
pub struct Plan {
    pub draft: Draft,
    pub boxes: Vec<BlackBox>,
    pub pending: Vec<Pending>,
    /// What the scopes declare that are open, the innermost one last.
    pub around: Vec<Entries>,
    /// The turns of generate loops so far.
    pub turns: u32,
}
