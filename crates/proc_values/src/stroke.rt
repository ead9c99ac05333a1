//! One bit of a write.

use rdc_tern::Tern;

/// A bit becomes `mux(hit, value, what it is)`.
#[derive(Clone, Copy)]
pub struct Stroke {
    pub hit: Tern,
    pub bit: u32,
    pub value: Tern,
}
