//! The printed names of bits.
ghost use Rattle.std.specs.Prelude.{◌≡◌, ◌<◌, ◌++◌, length, map, codes, IfOk, OnOk};
ghost use Rattle.std.specs.Fmt.{decimal};
ghost use Rattle.design_form.specs.Signals.{bit_name, bit_names, bounds_of, index_at, width_of};
ghost use Rattle.design_form.specs.Numbers.{bits_of, entered};
ghost use Rattle.design_form.specs.Tables.{number_at};

use crate::name_table::NameTable;
use crate::signal::{Bounds, Signal};
use std::alloc::{AllocError, Global};
use std::collections::BTreeSet;

/// The index of the bit that stands so many places above the least significant one.
#[tactic(auto, unfolding(crate::specs::Signals::index_at))]
fn index_at(bounds: Bounds, offset: usize) -> usize
    requires { offset < width_of bounds }
    ensures { result ≡ index_at bounds offset }
{
    let lsb = bounds.lsb as usize;
    if bounds.is_down() {
        lsb + offset
    } else {
        lsb - offset
    }
}

/// The printed name of a bit.
#[tactic(auto, unfolding(crate::specs::Signals::bit_name))]
fn bit_name(alloc: Global, signal: &Signal, offset: usize) -> Result<Vec<u8>, AllocError>
    requires { offset < width_of (bounds_of signal.now) }
    ensures { IfOk result (λ n. n.items ≡ bit_name signal.now offset) }
{
    let mut name = Vec::from_slice(alloc, signal.name.as_slice())?;
    if signal.is_single() {
        return Ok(name);
    }
    let index = index_at(signal.bounds(), offset);
    let index = format!(in alloc; "[{index}]")?;
    name.extend_from_slice(index.as_bytes())?;
    Ok(name)
}

/// Puts the names of a signal's bits where they belong.
fn enter(alloc: Global, names: &mut BTreeSet<Vec<u8>>, signal: &Signal) -> Result<(), AllocError>
    ensures { OnOk result (map (λ n. n.items) names.new.keys ≡ entered (map (λ n. n.items) names.old.keys) (bit_names signal.now)) }
{
    for offset in 0..signal.bounds().width() {
        let name = bit_name(alloc, signal, offset)?;
        names.insert(name)?;
    }
    Ok(())
}

/// The names of a set, in order.
fn listed(alloc: Global, names: BTreeSet<Vec<u8>>) -> Result<Vec<Vec<u8>>, AllocError>
    ensures { IfOk result (λ v. v.items ≡ names.keys) }
{
    let mut rest = names;
    let mut out = Vec::new(alloc);
    while let Some(name) = rest.pop_first() {
        out.push(name)?;
    }
    Ok(out)
}

/// The names of all bits, in byte order.
pub(crate) fn sorted(alloc: Global, signals: &[Signal]) -> Result<Vec<Vec<u8>>, AllocError>
    ensures { IfOk result (λ ns. map (λ n. n.items) ns.items ≡ bits_of signals.now) }
{
    let mut names = BTreeSet::new(alloc);
    for signal in signals {
        enter(alloc, &mut names, signal)?;
    }
    let sorted = listed(alloc, names)?;
    Ok(sorted)
}

/// The names of the signals.
pub(crate) fn signal_names(alloc: Global, signals: &[Signal]) -> Result<Vec<Vec<u8>>, AllocError>
    ensures { IfOk result (λ ns. map (λ n. n.items) ns.items ≡ map (λ s. s.name) signals.now) }
{
    let mut names = Vec::new(alloc);
    for signal in signals {
        let name = Vec::from_slice(alloc, signal.name.as_slice())?;
        names.push(name)?;
    }
    Ok(names)
}

/// What a table has at a name, or 0.
fn number(table: &NameTable, name: &[u8]) -> u32
    ensures { result ≡ number_at table.now name.now }
{
    match table.get(name) {
        Some(number) => number,
        None => 0,
    }
}

/// The numbers of a signal's bits, least significant first.
fn numbers(alloc: Global, signal: &Signal, table: &NameTable) -> Result<Vec<u32>, AllocError>
    ensures { IfOk result (λ v. v.items ≡ map (number_at table.now) (bit_names signal.now)) }
{
    let mut numbers = Vec::new(alloc);
    for offset in 0..signal.bounds().width() {
        let name = bit_name(alloc, signal, offset)?;
        numbers.push(number(table, &name))?;
    }
    Ok(numbers)
}

/// The numbers of each signal's bits.
pub(crate) fn all_numbers(
    alloc: Global,
    signals: &[Signal],
    table: &NameTable,
) -> Result<Vec<Vec<u32>>, AllocError>
    ensures { IfOk result (λ v. map (λ n. n.items) v.items ≡ map (λ s. map (number_at table.now) (bit_names s)) signals.now) }
{
    let mut all = Vec::new(alloc);
    for signal in signals {
        let these = numbers(alloc, signal, table)?;
        all.push(these)?;
    }
    Ok(all)
}
