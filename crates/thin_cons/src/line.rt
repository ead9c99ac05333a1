//! A line of the file.

/// What a line says of a port. The names lie in the bytes that were read.
#[derive(Clone, Copy, Debug, PartialEq, Eq)]
pub enum Line<'a> {
    /// The port is a clock.
    Clock(&'a [u8]),
    /// The port is a reset, asserted high where the flag is true, else low.
    Reset(&'a [u8], bool),
}
