//! A name with its index.

use vlog_const::Whole;

/// A name, or a name with the value of its index.
#[derive(Clone, Copy)]
pub(crate) struct Reference<'a> {
    pub(crate) name: &'a [u8],
    pub(crate) index: Option<Whole>,
}
