//! What a design keeps of its signals, so that nothing is looked for.
ghost use Rattle.std.specs.Prelude.{◌≡◌, ◌<◌, ◌^◌, length, map, IfOk};
ghost use Rattle.design_form.specs.Numbers.{index_of, printed};
ghost use Rattle.design_form.specs.Tables.{AreTablesOf, numbers_at};

use crate::name_table::NameTable;
use crate::naming::{all_numbers, signal_names, sorted};
use crate::signal::Signal;
use std::alloc::{AllocError, Global};

/// The names of signals and bits, and where each stands.
#[derive(Drop)]
pub(crate) struct Tables {
    /// The printed names of the bits, by number.
    pub(crate) names: Vec<Vec<u8>>,
    pub(crate) bits: NameTable,
    /// Where each signal stands.
    pub(crate) places: NameTable,
    /// The numbers of each signal's bits, least significant first.
    pub(crate) numbers: Vec<Vec<u32>>,
}

/// Where each signal stands.
fn places_of(alloc: Global, signals: &[Signal]) -> Result<NameTable, AllocError>
    requires { length (printed signals.now) < 2 ^ 32 }
    ensures { IfOk result (λ t. numbers_at t ≡ index_of (map (λ s. s.name) signals.now)) }
{
    let names = signal_names(alloc, signals)?;
    NameTable::new(alloc, &names)
}

impl Tables {
    /// The tables of signals.
    pub(crate) fn new(alloc: Global, signals: &[Signal]) -> Result<Tables, AllocError>
        requires { length (printed signals.now) < 2 ^ 32 }
        ensures { IfOk result (λ t. AreTablesOf signals.now t) }
    {
        let names = sorted(alloc, signals)?;
        let bits = NameTable::new(alloc, &names)?;
        let places = places_of(alloc, signals)?;
        let numbers = all_numbers(alloc, signals, &bits)?;
        Ok(Tables {
            names,
            bits,
            places,
            numbers,
        })
    }
}
