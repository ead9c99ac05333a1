//! Bits in ascending order, each once.
ghost use Rattle.std.specs.Prelude.{◌≡◌, ◌++◌, map, IfOk, OnOk};
ghost use Rattle.std.specs.List.{flat_map, list_all, list_any};
ghost use Rattle.elab_bits.specs.Touches.{entered, is_among, once};
ghost use Rattle.vlog_proc.specs.Paths.{kept_in, shared};

use elab_bits::Touch;
use std::alloc::{AllocError, Global};
use std::collections::BTreeSet;

/// Bits put in.
pub(crate) fn enter(set: &mut BTreeSet<u32>, bits: &[u32]) -> Result<(), AllocError>
    ensures { OnOk result (set.new.keys ≡ entered set.old.keys bits.now) }
{
    for bit in bits {
        set.insert(*bit)?;
    }
    Ok(())
}

/// The set of these bits.
pub(crate) fn set_of(alloc: Global, bits: &[u32]) -> Result<BTreeSet<u32>, AllocError>
    ensures { IfOk result (λ set. set.keys ≡ once bits.now) }
{
    let mut set = BTreeSet::new(alloc);
    enter(&mut set, bits)?;
    Ok(set)
}

/// The bits of some touches, behind those that are there.
pub(crate) fn put_bits(bits: &mut Vec<u32>, touches: &[Touch]) -> Result<(), AllocError>
    ensures { OnOk result (bits.new.items ≡ bits.old.items ++ map (λ t. t.bit) touches.now) }
{
    for touch in touches {
        bits.push(touch.bit)?;
    }
    Ok(())
}

/// The bits of a set, in order.
pub(crate) fn listed(alloc: Global, set: &BTreeSet<u32>) -> Result<Vec<u32>, AllocError>
    ensures { IfOk result (λ v. v.items ≡ set.now.keys) }
{
    set.iter().copied().collect(alloc)
}

/// The same set.
pub(crate) fn copy(set: &BTreeSet<u32>) -> Result<BTreeSet<u32>, AllocError>
    ensures { IfOk result (λ copy. copy.keys ≡ set.now.keys) }
{
    set.clone()
}

/// Whether a bit is in a set.
pub(crate) fn is_among(set: &BTreeSet<u32>, bit: u32) -> bool
    ensures { result ≡ is_among set.now.keys bit }
{
    set.contains(&bit)
}

/// Whether one of some bits is in a set.
pub(crate) fn any_among(set: &BTreeSet<u32>, bits: &[u32]) -> bool
    ensures { result ≡ list_any (is_among set.now.keys) bits.now }
{
    for bit in bits {
        if is_among(set, *bit) {
            return true;
        }
    }
    false
}

/// Whether all of some bits are in a set.
pub(crate) fn all_among(set: &BTreeSet<u32>, bits: &[u32]) -> bool
    ensures { result ≡ list_all (is_among set.now.keys) bits.now }
{
    for bit in bits {
        if !is_among(set, *bit) {
            return false;
        }
    }
    true
}

/// A bit, if it is in a set, behind those that are there.
#[tactic(auto, unfolding(crate::specs::Paths::kept_in))]
fn put_kept(set: &BTreeSet<u32>, bit: u32, bits: &mut Vec<u32>) -> Result<(), AllocError>
    ensures { OnOk result (bits.new.items ≡ bits.old.items ++ kept_in set.now.keys bit) }
{
    if is_among(set, bit) {
        bits.push(bit)?;
    }
    Ok(())
}

/// Those of some bits that are in a set, behind those that are there.
fn put_all_kept(set: &BTreeSet<u32>, more: &[u32], bits: &mut Vec<u32>) -> Result<(), AllocError>
    ensures { OnOk result (bits.new.items ≡ bits.old.items ++ flat_map (kept_in set.now.keys) more.now) }
{
    for bit in more {
        put_kept(set, *bit, bits)?;
    }
    Ok(())
}

/// The bits that two sets share.
#[tactic(auto, unfolding(crate::specs::Paths::shared))]
pub(crate) fn share(
    alloc: Global,
    set: &BTreeSet<u32>,
    other: &BTreeSet<u32>,
) -> Result<BTreeSet<u32>, AllocError>
    ensures { IfOk result (λ both. both.keys ≡ shared set.now.keys other.now.keys) }
{
    let all = listed(alloc, set)?;
    let mut bits = Vec::new(alloc);
    put_all_kept(other, &all, &mut bits)?;
    set_of(alloc, &bits)
}
