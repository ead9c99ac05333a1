//! What the data of a flop may read, where its edge is to be the same.

ghost use Rattle.std.specs.Prelude.{◌≡◌, ◌↔◌, ◌<◌, IsTrue, length, All, Contains};
ghost use Rattle.reset_trees.specs.Marking.{ReadsSame};
ghost use Rattle.reset_trees.specs.Same.{HasOnePin, IsSameSource};

use net_view::{FlopOf, SrcKind};

/// Whether two flops have one pin.
fn has_one_pin(f: &FlopOf<u32>, g: &FlopOf<u32>) -> bool
    ensures { IsTrue result ↔ HasOnePin f.now g.now }
{
    f.pin.is_some() && g.pin.is_some() && f.root == g.root && f.high == g.high
}

/// Whether the data of a flop may read a source of the kind and level.
fn is_same_source(flop: &FlopOf<u32>, kind: &SrcKind<u32>, level: Option<bool>) -> bool
    ensures { IsTrue result ↔ IsSameSource flop.now kind.now level }
{
    match kind {
        SrcKind::Port => level.is_none(),
        SrcKind::BoxOut => true,
        SrcKind::Flop(other) => other.pin.is_none() || has_one_pin(flop, other),
    }
}

/// Whether the data of a flop may read each of some sources.
pub(crate) fn is_same(
    flop: &FlopOf<u32>,
    read: &[u32],
    kinds: &[SrcKind<u32>],
    levels: &[Option<bool>],
) -> bool
    requires inside { All (λ s. s < length kinds.now) read.now }
    requires levels { length levels.now ≡ length kinds.now }
    ensures { IsTrue result ↔ ReadsSame kinds.now levels.now flop.now (Contains read.now) }
{
    'read: for s in read {
        if !is_same_source(flop, &kinds[*s as usize], levels[*s as usize]) {
            return false;
        }
    }
    true
}
