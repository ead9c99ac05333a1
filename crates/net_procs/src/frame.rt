//! What a body is drawn in.

use design_form::Design;

/// A design, the bits that later reads see, and those that the process assigns.
#[derive(Clone, Copy)]
pub(crate) struct Frame<'a> {
    pub(crate) design: &'a Design,
    /// The bits at which later reads see what is assigned.
    pub(crate) reads: &'a [u32],
    /// The bits that the process assigns.
    pub(crate) bits: &'a [u32],
}
