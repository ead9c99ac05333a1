//! What a name means.

use design_form::{Bounds, SignalKind};
use rdc_outside::Seq;
use vlog_const::ConstValue;

/// A signal of the flat design.
#[derive(Drop)]
pub struct Known {
    /// Its hierarchical name, which has no index.
    pub printed: Seq<u8>,
    pub kind: SignalKind,
    pub signed: bool,
    /// None for one bit without an index.
    pub range: Option<Bounds>,
    /// Whether it is an input port of its module.
    pub input: bool,
}

/// What a name means.
#[derive(Drop)]
pub enum Meaning {
    /// A parameter, or the variable of a generate loop within its passes.
    Constant(ConstValue),
    Signal(Known),
    /// What is declared and has no value: an instance, a gate, a generate block, or a genvar outside its loop.
    Other,
}
