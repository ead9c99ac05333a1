//! Each printed name is that of one bit.
ghost use Rattle.std.specs.Prelude.{◌≡◌, ◌⊎◌, Ok, slice_index_or};
ghost use Rattle.elab_names.specs.Answers.{Answers, and_then};
ghost use Rattle.elab_names.specs.declared.fault.ElabFault.TheVariants.{Memory, TwiceDeclared};
ghost use Rattle.elab_scopes.specs.Tables.{Changes};
ghost use Rattle.elab_scopes.specs.Threads.{threaded};
ghost use Rattle.vlog_elab.specs.Bits.{bit_met, name_at, nowhere, once, signal_met};

use design_form::{Design, Signal};
use elab_names::ElabFault;
use rdc_outside::{Place, Seq};
use std::alloc::Global;

/// A second bit of one name.
fn second(alloc: Global, design: &Design, number: u32, place: Place) -> ElabFault
    ensures { (result ≡ Memory) ⊎ (result ≡ TwiceDeclared (name_at design.now.signals number) place) }
{
    let name = match design.bit_name(number) {
        Some(name) => name.to_vec(alloc),
        None => Ok(Vec::new(alloc)),
    };
    match name {
        Ok(name) => ElabFault::TwiceDeclared(Seq::from_vec(name), place),
        Err(_) => ElabFault::Memory,
    }
}

/// One more bit.
#[tactic(auto, unfolding(crate::specs::Bits::bit_met))]
fn meet(
    alloc: Global,
    design: &Design,
    marks: &mut Vec<bool>,
    place: Place,
    number: u32,
) -> Result<(), ElabFault>
    ensures { Changes result marks.new.items (bit_met design.now.signals place marks.old.items number) }
{
    match marks.get_mut(number as usize) {
        Some(mark) => {
            if *mark {
                return Err(second(alloc, design, number, place));
            }
            *mark = true;
            Ok(())
        }
        None => Ok(()),
    }
}

/// Some more bits.
fn meet_all(
    alloc: Global,
    design: &Design,
    marks: &mut Vec<bool>,
    place: Place,
    numbers: &[u32],
) -> Result<(), ElabFault>
    ensures { Changes result marks.new.items (threaded (bit_met design.now.signals place) marks.old.items numbers.now) }
{
    for number in numbers {
        match meet(alloc, design, marks, place, *number) {
            Ok(()) => {}
            Err(fault) => return Err(fault),
        }
    }
    Ok(())
}

/// The bits of a signal.
#[tactic(auto, unfolding(crate::specs::Bits::signal_met, crate::specs::Bits::numbers_at, elab_scopes::specs::Threads::threaded))]
fn meet_signal(
    alloc: Global,
    design: &Design,
    marks: &mut Vec<bool>,
    place: Place,
    signal: &Signal,
) -> Result<(), ElabFault>
    ensures { Changes result marks.new.items (signal_met design.now.signals place marks.old.items signal.now) }
{
    match design.bits_of(signal.name.as_slice()) {
        Some(numbers) => meet_all(alloc, design, marks, place, numbers),
        None => Ok(()),
    }
}

/// The place of a signal's declaration.
fn place_of(places: &[Place], k: usize) -> Place
    ensures { result ≡ slice_index_or places.now k nowhere }
{
    match places.get(k) {
        Some(place) => *place,
        None => Place {
            file: 0,
            line: 0,
            col: 0,
        },
    }
}

/// The bits of all signals.
#[tactic(auto, unfolding(crate::specs::Bits::met_from, elab_names::specs::Answers::and_then))]
pub(crate) fn once(alloc: Global, design: &Design, places: &[Place]) -> Result<(), ElabFault>
    ensures { Answers (λ u. u) result (and_then (once design.now.signals places.now) (λ m. Ok tt)) }
{
    let mut marks = Vec::from_elem(alloc, false, design.bits() as usize)?;
    let signals = design.parts().signals.as_slice();
    for (k, signal) in signals.iter().enumerate() {
        match meet_signal(alloc, design, &mut marks, place_of(places, k), signal) {
            Ok(()) => {}
            Err(fault) => return Err(fault),
        }
    }
    Ok(())
}
