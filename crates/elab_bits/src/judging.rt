//! Faults of bits.
ghost use Rattle.std.specs.Prelude.{◌≡◌, ◌⊎◌, length, List, Ok};
ghost use Rattle.design_form.specs.Numbers.{bits_of};
ghost use Rattle.elab_names.specs.declared.fault.ElabFault.TheVariants.{Memory, TwiceDriven, Undriven};
ghost use Rattle.elab_names.specs.Answers.{Answers};
ghost use Rattle.elab_bits.specs.Judgements.{judged, or_else};
ghost use Rattle.elab_bits.specs.Tables.{HoldsFirsts, fault_by};
ghost use Rattle.elab_bits.specs.declared.touch.Touch as rust;

use crate::tables::{Firsts, table_of};
use crate::touch::Touch;
use design_form::Design;
use elab_names::ElabFault;
use rdc_outside::{Place, Seq};
use std::alloc::Global;

/// A bit that is driven twice.
fn twice_driven(alloc: Global, name: &[u8], place: Place) -> ElabFault
    ensures { (result ≡ Memory) ⊎ (result ≡ TwiceDriven name.now place) }
{
    match name.to_vec(alloc) {
        Ok(name) => ElabFault::TwiceDriven(Seq::from_vec(name), place),
        Err(_) => ElabFault::Memory,
    }
}

/// A bit that is read and not driven.
fn undriven(alloc: Global, name: &[u8], place: Place) -> ElabFault
    ensures { (result ≡ Memory) ⊎ (result ≡ Undriven name.now place) }
{
    match name.to_vec(alloc) {
        Ok(name) => ElabFault::Undriven(Seq::from_vec(name), place),
        Err(_) => ElabFault::Memory,
    }
}

/// The fault of a bit, by the first places where it is driven and read.
#[tactic(auto, unfolding(crate::specs::Tables::fault_by, crate::specs::Tables::fault_if, crate::specs::Judgements::or_else))]
fn judge_bit(alloc: Global, name: &[u8], driven: Firsts, read: Firsts) -> Result<(), ElabFault>
    ensures { Answers (λ u. u) result (or_else (fault_by name.now driven read) (Ok tt)) }
{
    match (driven.least, driven.next, read.least) {
        (_, Some(place), _) => Err(twice_driven(alloc, name, place)),
        (None, None, Some(place)) => Err(undriven(alloc, name, place)),
        (Some(_), None, _) => Ok(()),
        (None, None, None) => Ok(()),
    }
}

/// The fault of the first bit that has one, by the first places of each.
fn judge_tables(
    alloc: Global,
    design: &Design,
    driven: &[Firsts],
    read: &[Firsts],
) -> Result<(), ElabFault>
    requires driven { length driven.now ≡ length (bits_of design.now.signals) }
    requires read { length read.now ≡ length (bits_of design.now.signals) }
    ensures { (drives reads : List rust.Touch) → HoldsFirsts driven.now (length (bits_of design.now.signals)) drives → HoldsFirsts read.now (length (bits_of design.now.signals)) reads → Answers (λ u. u) result (judged (bits_of design.now.signals) drives reads) }
{
    for number in 0..design.bits() {
        let Some(name) = design.bit_name(number) else {
            return Ok(());
        };
        let (driven, read) = (driven[number as usize], read[number as usize]);
        match judge_bit(alloc, name, driven, read) {
            Ok(()) => {}
            Err(fault) => return Err(fault),
        }
    }
    Ok(())
}

/// Whether each bit has one driver at most, and each that is read has one, where these are all the drives and reads of a
/// design.
///
/// # Errors
/// Of the first bit, in the order of their numbers, that has one: `TwiceDriven` at its second driver in the order of places,
/// `Undriven` at the first read.
pub fn judge(
    alloc: Global,
    design: &Design,
    drives: &[Touch],
    reads: &[Touch],
) -> Result<(), ElabFault>
    ensures { Answers (λ u. u) result (judged (bits_of design.now.signals) drives.now reads.now) }
{
    let driven = table_of(alloc, design.bits(), drives)?;
    let read = table_of(alloc, design.bits(), reads)?;
    judge_tables(alloc, design, &driven, &read)
}
