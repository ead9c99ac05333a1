//! Which calms are asked about, and which are direct.

ghost use Rattle.std.specs.Prelude.{◌≡◌, ◌↔◌, ◌<◌, IsTrue, length, Some};
ghost use Rattle.cons_bind.specs.Names.{net_of};
ghost use Rattle.reset_trees.specs.Marking.{IsRoot};
ghost use Rattle.reset_trees.specs.Same.{CanCalm, CalmsTo};

use net_view::{FlopNet, FlopOf, Gate, SrcKind};

/// Whether a source of the kind and level can calm.
pub(crate) fn can_calm(kind: &SrcKind<u32>, level: Option<bool>) -> bool
    ensures { IsTrue result ↔ CanCalm kind.now level }
{
    match kind {
        SrcKind::Port => level.is_some(),
        SrcKind::BoxOut => false,
        SrcKind::Flop(flop) => flop.pin.is_some(),
    }
}

/// Whether what Calm gives a source of the kind and level is the value.
fn calms_to(kind: &SrcKind<u32>, level: Option<bool>, value: bool) -> bool
    ensures { IsTrue result ↔ CalmsTo kind.now level value }
{
    match kind {
        SrcKind::Port => level == Some(value),
        SrcKind::BoxOut => false,
        SrcKind::Flop(flop) => flop.reset == value,
    }
}

/// Whether source s is the root, and its Calm makes the pin of the flop active.
pub(crate) fn is_direct(
    flop: &FlopOf<u32>,
    root: Option<u32>,
    s: u32,
    kind: &SrcKind<u32>,
    level: Option<bool>,
) -> bool
    ensures { IsTrue result ↔ ((root ≡ Some s) × CalmsTo kind.now level flop.now.high) }
{
    root == Some(s) && calms_to(kind, level, flop.high)
}

/// The source that a bit is; None where the bit is no source.
pub(crate) fn source_at<V: FlopNet>(view: &V, b: u32) -> Option<u32>
    requires { b < length (V.named_bits view.now) }
    ensures { let net = net_of (V.gates view.now) (V.names view.now) (V.kinds view.now) (V.named_bits view.now) in
        IsRoot net b result }
{
    let _bits = view.bits();
    let _nodes = view.nodes();
    let Gate::Source(source) = view.gate(view.bit_node(b)) else {
        return None;
    };
    if view.name(source) == view.bit_name(b) {
        Some(view.src_index(source))
    } else {
        None
    }
}
