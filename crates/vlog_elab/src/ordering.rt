//! Signals in name order.
ghost use Rattle.std.specs.Prelude.{◌≡◌, ◌⊎◌};
ghost use Rattle.elab_names.specs.Answers.{Answers};
ghost use Rattle.elab_names.specs.declared.fault.ElabFault.TheVariants.{Memory, TwiceDeclared};
ghost use Rattle.vlog_elab.specs.Orders.{IsInOrder, repeated, repeated_behind};

use elab_names::ElabFault;
use elab_scopes::Placed;
use rdc_outside::{Place, Seq};
use std::alloc::Global;

/// The signals in the byte order of their names.
pub(crate) fn in_order(signals: Vec<Placed>) -> Vec<Placed>
    ensures { IsInOrder signals.items result.items }
{
    let mut signals = signals;
    signals.sort_unstable_by(|a, b| a.signal.name.as_slice().cmp(b.signal.name.as_slice()));
    signals
}

/// A name that is declared already.
fn twice(alloc: Global, name: &[u8], place: Place) -> ElabFault
    ensures { (result ≡ Memory) ⊎ (result ≡ TwiceDeclared name.now place) }
{
    match name.to_vec(alloc) {
        Ok(name) => ElabFault::TwiceDeclared(Seq::from_vec(name), place),
        Err(_) => ElabFault::Memory,
    }
}

/// Whether names in order differ behind one.
#[tactic(auto, unfolding(crate::specs::Orders::repeated_behind))]
fn differ_behind(alloc: Global, first: &Placed, others: &[Placed]) -> Result<(), ElabFault>
    ensures { Answers (λ u. u) result (repeated_behind first.now others.now) }
{
    let mut last = first;
    for one in others {
        if one.signal.name.as_slice() == last.signal.name.as_slice() {
            return Err(twice(alloc, one.signal.name.as_slice(), one.place));
        }
        last = one;
    }
    Ok(())
}

/// Whether names in order differ.
#[tactic(auto, unfolding(crate::specs::Orders::repeated))]
pub(crate) fn differ(alloc: Global, signals: &[Placed]) -> Result<(), ElabFault>
    ensures { Answers (λ u. u) result (repeated signals.now) }
{
    match signals {
        [] => Ok(()),
        [first, others @ ..] => differ_behind(alloc, first, others),
    }
}
