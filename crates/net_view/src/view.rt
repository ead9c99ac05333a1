//! A net as a list of gates.

ghost use Rattle.std.specs.Prelude.{◌≡◌, ℕ, ◌<◌, ◌≤◌, ◌^◌, List, length, slice_get, MatchOption, Some};
ghost use Rattle.net_view.specs.View.{Numbered, renumbered, IsNet};

use crate::gate::Gate;

/// A net: nodes are numbered from 0, each after the nodes that it reads, and sources from 0 without gaps.
/// Its ids are of types of its own, so that the nodes of two nets can't be mixed. No call takes memory.
pub trait View {
    type Node: Copy;

    type Src: Copy;

    /// What each node is, by numbers.
    ghost gates: { Self → List Numbered };

    /// How many sources there are.
    ghost source_count: { Self → ℕ };

    ghost node_number: { Self.Node → ℕ };

    ghost source_number: { Self.Src → ℕ };

    /// The number of nodes. Each reads lower ones, and each source has one node.
    fn nodes(&self) -> u32
        ensures count { result ≡ length (gates self.now) }
        ensures lawful { IsNet (gates self.now) (source_count self.now) };

    /// The node of a number; None exactly where there is none.
    fn node(&self, n: u32) -> Option<Self::Node>
        ensures { MatchOption result (length (gates self.now) ≤ n) (λ id. (n < length (gates self.now)) × (node_number id ≡ n)) };

    /// The number of a node of this view.
    fn index(&self, n: Self::Node) -> u32
        requires { node_number n < length (gates self.now) }
        ensures { result ≡ node_number n };

    /// The number of sources.
    fn sources(&self) -> u32
        ensures { result ≡ source_count self.now };

    /// The number of a source of this view.
    fn src_index(&self, s: Self::Src) -> u32
        requires { source_number s < source_count self.now }
        ensures { result ≡ source_number s };

    /// What a node of this view is.
    fn gate(&self, n: Self::Node) -> Gate<Self::Node, Self::Src>
        requires { node_number n < length (gates self.now) }
        ensures { slice_get (gates self.now) (node_number n) ≡ Some (renumbered node_number source_number result) };
}
