//! Lines with their names put in.

use rdc_outside::Seq;

/// The lines of a file in a net, in the order of the file.
#[derive(Debug, Drop)]
pub struct Bound {
    pub lines: Seq<BoundLine>,
}

/// A line: its number in the file, and what it says.
#[derive(Debug, Drop)]
pub struct BoundLine {
    pub number: u32,
    pub form: BoundForm,
}

/// What a line says of the sources of a net, by their numbers. A flag is true for `high` and for 1.
#[derive(Debug, Drop)]
pub enum BoundForm {
    /// The port is a clock.
    Clock(u32),
    /// The port or flop is a reset, asserted at this level.
    Reset(u32, bool),
    /// The port has this value in every state.
    Tie(u32, bool),
    /// The port is a data input although a pin reads it.
    Steady(u32),
    /// The flops take part in invariants.
    Track(Seq<u32>),
    /// While the second is in progress, the first is settled asserted and not in progress.
    Order(u32, u32),
    /// While the first is in progress, the node, which is the second, is settled at this value.
    Isolate(u32, u32, bool),
    /// No edge of the clock, which is the second, while the first is in progress.
    Quiet(u32, u32),
    /// The open problems of the flop are waived, for this reason.
    Waive(u32, Seq<u8>),
}

/// How the top module is judged: as the whole chip, or as a block whose ports may be anything.
#[derive(Clone, Copy, Debug, PartialEq, Eq)]
pub enum Ports {
    Chip,
    Block,
}
