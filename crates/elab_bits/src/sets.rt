//! Numbers of bits in ascending order, each once.
ghost use Rattle.std.specs.Prelude.{◌≡◌, ◌++◌, IfOk, OnOk};
ghost use Rattle.elab_bits.specs.Touches.{is_among, once, others, unless};

use crate::touch::Touch;
use std::alloc::{AllocError, Global};
use std::collections::BTreeSet;

/// The set of these bits.
pub(crate) fn set_of(alloc: Global, bits: &[u32]) -> Result<BTreeSet<u32>, AllocError>
    ensures { IfOk result (λ set. set.keys ≡ once bits.now) }
{
    let mut set = BTreeSet::new(alloc);
    for bit in bits {
        set.insert(*bit)?;
    }
    Ok(set)
}

/// The bits of a set, in order.
pub(crate) fn listed(alloc: Global, set: BTreeSet<u32>) -> Result<Vec<u32>, AllocError>
    ensures { IfOk result (λ v. v.items ≡ set.keys) }
{
    let mut rest = set;
    let mut out = Vec::new(alloc);
    while let Some(bit) = rest.pop_first() {
        out.push(bit)?;
    }
    Ok(out)
}

/// Whether a bit is in a set.
fn is_among(set: &BTreeSet<u32>, bit: u32) -> bool
    ensures { result ≡ is_among set.now.keys bit }
{
    set.contains(&bit)
}

/// A touch, unless its bit is in a set.
#[tactic(auto, unfolding(crate::specs::Touches::unless))]
fn put_unless(set: &BTreeSet<u32>, touch: Touch, touches: &mut Vec<Touch>) -> Result<(), AllocError>
    ensures { OnOk result (touches.new.items ≡ touches.old.items ++ unless set.now.keys touch) }
{
    if is_among(set, touch.bit) {
        return Ok(());
    }
    touches.push(touch)?;
    Ok(())
}

/// The touches whose bits aren't in a set, behind what is there.
pub(crate) fn put_others(
    set: &BTreeSet<u32>,
    more: &[Touch],
    touches: &mut Vec<Touch>,
) -> Result<(), AllocError>
    ensures { OnOk result (touches.new.items ≡ touches.old.items ++ others set.now.keys more.now) }
{
    for touch in more {
        put_unless(set, *touch, touches)?;
    }
    Ok(())
}
