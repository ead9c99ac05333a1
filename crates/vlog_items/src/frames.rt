//! One open file or replacement, and what is left of it.
ghost use Rattle.std.specs.Prelude.{◌≡◌, ◌+◌, ◌<◌, ◌≤◌, ◌^◌, length, false};
ghost use Rattle.vlog_items.specs.declared.frames.Origin.TheVariants.{OfFile, OfUse};

use rdc_outside::{Place, Seq};
use std::collections::VecDeque;

/// Where the bytes of a frame come from.
#[derive(Clone, Copy, Debug, PartialEq, Eq)]
pub(crate) enum Origin {
    OfFile,
    OfUse,
}

/// One open file or replacement.
#[derive(Debug, Drop)]
pub(crate) struct Frame {
    pub(crate) origin: Origin,
    pub(crate) bytes: Vec<u8>,
    /// How many bytes were read.
    pub(crate) at: usize,
    /// The place of the next byte, or of the use.
    pub(crate) place: Place,
    /// The macros that it adds to those within which the frames below it stand.
    pub(crate) names: VecDeque<Seq<u8>>,
    pub(crate) done: bool,
    ghost within: { at ≤ length bytes.items },
    ghost lines: { origin ≡ OfFile → place.line + length bytes.items < 2 ^ 32 + at },
    ghost cols: { origin ≡ OfFile → place.col + length bytes.items < 2 ^ 32 + at },
    ghost open: { origin ≡ OfUse → done ≡ false → at < length bytes.items },
}
