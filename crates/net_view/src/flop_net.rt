//! A net with flops, names and bits.

ghost use Rattle.std.specs.Prelude.{◌≡◌, ℕ, ◌<◌, List, length, slice_get, Some};
ghost use Rattle.net_view.specs.FlopNet.{Bit, Kind, renumbered_kind, IsFlopNet, FindsBit};

use crate::view::View;

/// What drives a source. `N` names a node.
#[derive(Clone, Copy, Debug, PartialEq, Eq)]
pub enum SrcKind<N> {
    /// An input port's bit.
    Port,
    /// An output bit of a black box.
    BoxOut,
    Flop(FlopOf<N>),
}

/// A flop's connections.
#[derive(Clone, Copy, Debug, PartialEq, Eq)]
pub struct FlopOf<N> {
    /// The source number of the clock's root port; None where that root is no input port.
    pub clock: Option<u32>,
    /// Whether the rising edge loads it.
    pub rising: bool,
    /// The data; None only for a flop of a block that was signed off without it.
    pub next: Option<N>,
    /// Whether the settling of its reset is asked about; false only for such a flop of a block.
    pub calms: bool,
    /// The asynchronous reset.
    pub pin: Option<N>,
    /// Whether the pin is active at 1.
    pub high: bool,
    /// The value that an active pin gives.
    pub reset: bool,
    /// The bit number of the pin's root, or of the flop itself where it has no pin.
    pub root: u32,
}

/// A view whose sources have names and kinds, and whose bits have names. No call takes memory.
pub trait FlopNet: View {
    /// The printed name of each source, by number.
    ghost names: { Self → List (List ℕ) };

    /// The kind of each source, by number.
    ghost kinds: { Self → List Kind };

    /// The named bits, in name order.
    ghost named_bits: { Self → List Bit };

    /// The printed name of a source of this net.
    fn name(&self, s: Self::Src) -> &str
        requires { Self.source_number s < Self.source_count self.now }
        ensures { slice_get (names self.now) (Self.source_number s) ≡ Some result.now };

    /// What drives a source of this net.
    fn kind(&self, s: Self::Src) -> SrcKind<Self::Node>
        requires { Self.source_number s < Self.source_count self.now }
        ensures { slice_get (kinds self.now) (Self.source_number s) ≡ Some (renumbered_kind Self.node_number result) };

    /// The number of named bits.
    fn bits(&self) -> u32
        ensures count { result ≡ length (named_bits self.now) }
        ensures lawful { IsFlopNet (Self.gates self.now) (Self.source_count self.now) (names self.now) (kinds self.now) (named_bits self.now) };

    /// The printed name of a bit.
    fn bit_name(&self, b: u32) -> &str
        requires { b < length (named_bits self.now) }
        ensures { (bit : Bit) → slice_get (named_bits self.now) b ≡ Some bit → result.now ≡ bit.name };

    /// The node that a bit is.
    fn bit_node(&self, b: u32) -> Self::Node
        requires { b < length (named_bits self.now) }
        ensures { (bit : Bit) → slice_get (named_bits self.now) b ≡ Some bit → Self.node_number result ≡ bit.node };

    /// The bit that is found by following plain copies from a bit.
    fn bit_root(&self, b: u32) -> u32
        requires { b < length (named_bits self.now) }
        ensures { (bit : Bit) → slice_get (named_bits self.now) b ≡ Some bit → result ≡ bit.root };

    /// The least bit of that name; None exactly where no bit has it.
    fn find(&self, name: &str) -> Option<u32>
        ensures { FindsBit (named_bits self.now) name.now result };
}
