//! A text to be read, and where each byte of it stands.

use crate::Seq;

/// Where a byte stands. Lines and columns are counted from 1, columns in bytes.
#[derive(Clone, Copy, Debug, PartialEq, Eq)]
pub struct Place {
    /// The file's number in `Text::files`.
    pub file: u32,
    pub line: u32,
    pub col: u32,
}

/// A text that was put together from files.
#[derive(Debug, Drop)]
pub struct Text {
    pub bytes: Seq<u8>,
    /// The place of each byte.
    pub places: Seq<Place>,
    /// The names of the files.
    pub files: Seq<String>,
}
