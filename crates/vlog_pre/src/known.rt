//! What is known between two steps.
ghost use Rattle.std.specs.Prelude.{◌≡◌, IfOk};
ghost use Rattle.vlog_pre.specs.Known.{name_at};

use crate::levels::Levels;
use crate::macros::Macros;
use rdc_outside::{Place, Seq};
use std::alloc::{AllocError, Global};
use vlog_items::Mode;

/// What is known between two steps.
#[derive(Drop)]
pub(crate) struct Known {
    pub(crate) macros: Macros,
    pub(crate) levels: Levels,
    /// What the text so far is in the middle of.
    pub(crate) mode: Mode,
    /// The same of a part that is not taken.
    pub(crate) skipped: Mode,
    /// How many uses and files were met.
    pub(crate) count: u32,
    /// How many files are open.
    pub(crate) depth: u32,
    /// The text so far, and the place of each byte.
    pub(crate) bytes: Seq<u8>,
    pub(crate) places: Seq<Place>,
    /// The names of the files so far.
    pub(crate) files: Seq<Seq<u8>>,
    /// The place after the last byte of the file that ended last.
    pub(crate) end: Place,
}

/// The name of the file of a place.
pub(crate) fn name_of(alloc: Global, known: &Known, place: Place) -> Result<Seq<u8>, AllocError>
    ensures { IfOk result (λ name. name ≡ name_at known.now.files place.file) }
{
    match known.files.as_slice().get(place.file as usize) {
        None => Ok(Seq::new(alloc)),
        Some(name) => Ok(Seq::from_vec(Vec::from_slice(alloc, name.as_slice())?)),
    }
}
