//! What stands first of what is left.

use rdc_outside::Place;

/// What stands first of what is left.
#[derive(Clone, Copy, Debug, PartialEq, Eq)]
pub enum Ahead {
    /// A byte at its place.
    Read(u8, Place),
    /// The end of a file, at the place after its last byte.
    Ended(Place),
    /// A file that is still to come.
    Coming,
    Nothing,
}
