//! The pin order and the cones of the pins.

use rdc_outside::Seq;

/// The flops of a net in pin order, and the cones of their pins.
#[derive(Debug, Drop)]
pub struct Trees {
    /// All flops, by source number, each after those that its pin reads.
    pub order: Seq<u32>,
    /// Each flop with a pin, by source number.
    pub pins: Seq<PinCone>,
}

/// A flop's pin.
#[derive(Debug, Drop)]
pub struct PinCone {
    pub flop: u32,
    /// The sources that the pin's logic reads, ascending.
    pub sources: Seq<u32>,
}
