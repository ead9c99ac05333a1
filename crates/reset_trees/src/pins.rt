//! The cones of the pins.

ghost use Rattle.std.specs.Prelude.{◌≡◌, MatchResult};
ghost use Rattle.cons_bind.specs.Names.{net_of};
ghost use Rattle.reset_trees.specs.Tables.{pin_in};
ghost use Rattle.reset_trees.specs.declared.fault.TreeFault.TheVariants.{Memory};
ghost use Rattle.reset_trees.specs.Trees.{ArePinCones};

use crate::cone::cone_of;
use crate::fault::TreeFault;
use crate::trees::PinCone;
use net_view::{FlopNet, SrcKind};
use rdc_outside::Seq;
use std::alloc::Global;

/// The pin of a source, if it is a flop that has one.
pub(crate) fn pin_of(kind: &SrcKind<u32>) -> Option<u32>
    ensures { result ≡ pin_in kind.now }
{
    match kind {
        SrcKind::Port | SrcKind::BoxOut => None,
        SrcKind::Flop(flop) => flop.pin,
    }
}

/// Each flop with a pin, with the cone of the pin.
pub(crate) fn pin_cones<V: FlopNet>(
    alloc: Global,
    view: &V,
    kinds: &[SrcKind<u32>],
) -> Result<Seq<PinCone>, TreeFault>
    requires { kinds.now ≡ V.kinds view.now }
    ensures { let net = net_of (V.gates view.now) (V.names view.now) (V.kinds view.now) (V.named_bits view.now) in
        MatchResult result (λ pins. ArePinCones net pins) (λ fault. fault ≡ Memory) }
{
    let _bits = view.bits();
    let _sources = view.sources();
    let mut pins = Seq::new(alloc);
    'sources: for flop in 0..kinds.len() as u32 {
        if let Some(pin) = pin_of(&kinds[flop as usize]) {
            let sources = cone_of(alloc, view, pin)?;
            pins.push(PinCone { flop, sources })?;
        }
    }
    Ok(pins)
}
