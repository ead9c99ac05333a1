//! A flat design with the numbers of its bits.
ghost use Rattle.std.specs.Prelude.{◌≡◌, ◌<◌, ◌^◌, length, slice_get, IfOk};
ghost use Rattle.std.specs.Option.{option_copied, option_map};
ghost use Rattle.design_form.specs.Numbers.{printed, bits_of, index_of, numbers_of, signal_of};

use crate::fault::DesignFault;
use crate::parts::Parts;
use crate::signal::Signal;
use crate::tables::Tables;
use sqlite_items::at;
use std::alloc::Global;
use std::marker::Model;

/// A flat design. Its bits are numbered from 0, in the byte order of their printed names.
#[derive(Drop)]
pub struct Design {
    parts: Parts,
    tables: Tables,
}

impl Model for Design {
    ghost use Rattle.design_form.specs.declared.parts.Parts.{Parts};
    ghost use Rattle.design_form.specs.Tables.{AreTablesOf};
    ghost use Rattle.std.specs.Coded.{codes};
    ghost use Rattle.vlog_tree.specs.contracts.expr.Expr as expr;
    ghost use Rattle.vlog_tree.specs.contracts.stmt.Stmt as stmt;

    ghost Value = { Parts };

    ghost coded = { Prim.hlevel (codes, expr.the_row.coded, stmt.the_row.coded) };

    ghost view = { λ d. d.parts };

    ghost invariant = { λ d. AreTablesOf d.parts.signals d.tables };
}

impl Design {
    /// A design of these parts.
    pub fn new(alloc: Global, parts: Parts) -> Result<Design, DesignFault>
        requires { length (printed parts.signals) < 2 ^ 32 }
        ensures { IfOk result (λ d. d ≡ parts) }
    {
        let tables = Tables::new(alloc, parts.signals.as_slice())?;
        Ok(Design { parts, tables })
    }

    /// What it is made of.
    pub fn parts(&self) -> &Parts
        ensures { result.now ≡ self.now }
    {
        &self.parts
    }

    /// How many bits there are.
    pub fn bits(&self) -> u32
        ensures { result ≡ length (bits_of self.now.signals) }
    {
        self.tables.names.len() as u32
    }

    /// The printed name of a bit.
    pub fn bit_name(&self, number: u32) -> Option<&[u8]>
        ensures { option_copied result ≡ slice_get (bits_of self.now.signals) number }
    {
        match self.tables.names.get(number as usize) {
            Some(name) => Some(name.as_slice()),
            None => None,
        }
    }

    /// The number of the bit with that printed name.
    pub fn find(&self, name: &[u8]) -> Option<u32>
        ensures { result ≡ index_of (bits_of self.now.signals) name.now }
    {
        self.tables.bits.get(name)
    }

    /// The signal of that name.
    pub fn signal(&self, name: &[u8]) -> Option<&Signal>
        ensures { option_copied result ≡ signal_of self.now.signals name.now }
    {
        match self.tables.places.get(name) {
            Some(place) => at(self.parts.signals.as_slice(), place as usize),
            None => None,
        }
    }

    /// The numbers of the bits of the signal of that name, least significant first.
    pub fn bits_of(&self, name: &[u8]) -> Option<&[u32]>
        ensures { option_copied result ≡ option_map (numbers_of self.now.signals) (signal_of self.now.signals name.now) }
    {
        match self.tables.places.get(name) {
            Some(place) => match at(&self.tables.numbers, place as usize) {
                Some(numbers) => Some(numbers.as_slice()),
                None => None,
            },
            None => None,
        }
    }
}
