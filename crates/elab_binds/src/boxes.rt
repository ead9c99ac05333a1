//! Modules that are known by their ports alone.

use rdc_outside::Seq;

/// A port of a box, with the range `[msb:lsb]`.
#[derive(Debug, Drop)]
pub struct PortShape {
    pub name: Seq<u8>,
    /// Whether it is an input; otherwise it is an output.
    pub input: bool,
    pub msb: u32,
    pub lsb: u32,
}

/// A module that is known by its ports alone.
#[derive(Debug, Drop)]
pub struct BoxPorts {
    pub module: Seq<u8>,
    /// In their order.
    pub ports: Seq<PortShape>,
}
