//! The calms of the flops with pins.

ghost use Rattle.std.specs.Prelude.{◌≡◌, ℕ, ◌+◌, ◌<◌, true, List, length, MatchOption, Some, IfOk, OnOk};
ghost use Rattle.net_view.specs.FlopNet.{IsFlopAt};
ghost use Rattle.net_view.specs.Cone.{Lists};
ghost use Rattle.cons_bind.specs.Names.{net_of};
ghost use Rattle.cons_bind.specs.declared.bound.BoundForm.{BoundForm as DeclaredForm};
ghost use Rattle.reset_trees.specs.Marking.{AreLevels, IsMarkedCalm, IsRoot, AreCalmsOf};
ghost use Rattle.reset_trees.specs.Problems.{AreCalms};
ghost use Rattle.reset_trees.specs.Reads.{HasPin, PinReads};
ghost use Rattle.reset_trees.specs.Same.{CanCalm, CalmsTo};
ghost use Rattle.reset_trees.specs.Trees.{ArePinCones};

use crate::answers::{Mark, Marked};
use crate::direct::{can_calm, is_direct, source_at};
use crate::trees::PinCone;
use net_view::{FlopNet, FlopOf, SrcKind};
use rdc_outside::Seq;
use std::alloc::{AllocError, Global};

/// The calm of flop n by a source, if the source can calm.
fn calm_of(
    n: u32,
    flop: &FlopOf<u32>,
    root: Option<u32>,
    s: u32,
    kind: &SrcKind<u32>,
    level: Option<bool>,
) -> Option<Marked>
    ensures { MatchOption result (CanCalm kind.now level → ⊥) (λ calm. CanCalm kind.now level × IsMarkedCalm n s ((root ≡ Some s) × CalmsTo kind.now level flop.now.high) calm) }
{
    if !can_calm(kind, level) {
        return None;
    }
    let mark = if is_direct(flop, root, s, kind, level) {
        Mark::Direct
    } else {
        Mark::Asked
    };
    Some(Marked {
        flop: n,
        by: Some(s),
        mark,
    })
}

/// Pushes the calms of a flop that asks about them, behind those of lower flops.
fn push_calms<V: FlopNet>(
    view: &V,
    kinds: &[SrcKind<u32>],
    levels: &[Option<bool>],
    pin: &PinCone,
    flop: &FlopOf<u32>,
    calms: &mut Vec<Marked>,
) -> Result<(), AllocError>
    requires kinds { kinds.now ≡ V.kinds view.now }
    requires levels { length levels.now ≡ length kinds.now }
    requires flop { IsFlopAt (V.kinds view.now) pin.now.flop flop.now }
    requires asked { flop.now.calms ≡ true }
    requires pin { let net = net_of (V.gates view.now) (V.names view.now) (V.kinds view.now) (V.named_bits view.now) in
        HasPin net pin.now.flop × Lists (PinReads net pin.now.flop) pin.now.sources }
    ensures { OnOk result ((lines : List DeclaredForm) → AreLevels lines levels.now → let net = net_of (V.gates view.now) (V.names view.now) (V.kinds view.now) (V.named_bits view.now) in
        AreCalmsOf net lines (λ f s. f < pin.now.flop) calms.old.items → AreCalmsOf net lines (λ f s. f < pin.now.flop + 1) calms.new.items) }
{
    let _bits = view.bits();
    let _nodes = view.nodes();
    let root = source_at(view, flop.root);
    'sources: for s in pin.sources.as_slice() {
        let kind = &kinds[*s as usize];
        if let Some(calm) = calm_of(pin.flop, flop, root, *s, kind, levels[*s as usize]) {
            calms.push(calm)?;
        }
    }
    Ok(())
}

/// Pushes the calms of a flop with a pin, behind those of lower flops.
fn pin_calms<V: FlopNet>(
    view: &V,
    kinds: &[SrcKind<u32>],
    levels: &[Option<bool>],
    pin: &PinCone,
    calms: &mut Vec<Marked>,
) -> Result<(), AllocError>
    requires kinds { kinds.now ≡ V.kinds view.now }
    requires levels { length levels.now ≡ length kinds.now }
    requires pin { let net = net_of (V.gates view.now) (V.names view.now) (V.kinds view.now) (V.named_bits view.now) in
        HasPin net pin.now.flop × Lists (PinReads net pin.now.flop) pin.now.sources }
    ensures { OnOk result ((lines : List DeclaredForm) → AreLevels lines levels.now → let net = net_of (V.gates view.now) (V.names view.now) (V.kinds view.now) (V.named_bits view.now) in
        AreCalmsOf net lines (λ f s. f < pin.now.flop) calms.old.items → AreCalmsOf net lines (λ f s. f < pin.now.flop + 1) calms.new.items) }
{
    let SrcKind::Flop(flop) = &kinds[pin.flop as usize] else {
        return Ok(());
    };
    if flop.calms {
        push_calms(view, kinds, levels, pin, flop, calms)
    } else {
        Ok(())
    }
}

/// The calms of each flop with a pin.
pub(crate) fn calms_of<V: FlopNet>(
    alloc: Global,
    view: &V,
    kinds: &[SrcKind<u32>],
    levels: &[Option<bool>],
    pins: &[PinCone],
) -> Result<Seq<Marked>, AllocError>
    requires kinds { kinds.now ≡ V.kinds view.now }
    requires levels { length levels.now ≡ length kinds.now }
    requires pins { ArePinCones (net_of (V.gates view.now) (V.names view.now) (V.kinds view.now) (V.named_bits view.now)) pins.now }
    ensures { IfOk result (λ calms. (lines : List DeclaredForm) → AreLevels lines levels.now → let net = net_of (V.gates view.now) (V.names view.now) (V.kinds view.now) (V.named_bits view.now) in
        AreCalms net lines calms) }
{
    let mut calms = Vec::new(alloc);
    'pins: for pin in pins {
        pin_calms(view, kinds, levels, pin, &mut calms)?;
    }
    Ok(Seq::from_vec(calms))
}
