//! What a source is: an input port, or a register with its flop.

/// A flop with an asynchronous reset. `clock` and `pin` are numbers of sources of its design, `data` is a node.
#[derive(Clone, Copy, Debug, PartialEq, Eq)]
pub struct Flop {
    /// The input port at whose rising edge the flop takes its data.
    pub clock: u32,
    /// The input port that resets the flop.
    pub pin: u32,
    /// The level of the pin that resets.
    pub high: bool,
    /// The value that a reset gives.
    pub reset: bool,
    /// The node that the flop reads.
    pub data: u32,
}

/// What a source is.
#[derive(Clone, Copy, Debug, PartialEq, Eq)]
pub enum Kind {
    Input,
    Register(Flop),
}

/// A node of a design: a source by number, or a gate over nodes before it.
#[derive(Clone, Copy, Debug, PartialEq, Eq)]
pub enum Node {
    Source(u32),
    Not(u32),
    And(u32, u32),
    Or(u32, u32),
}

/// A named bit of a design: a source, or a wire.
#[derive(Clone, Copy, Debug, PartialEq, Eq)]
pub struct Bit<'a> {
    pub name: &'a [u8],
    pub node: u32,
    /// It is a wire, and no source.
    pub wire: bool,
}
