//! Sources and bits as a netlist keeps them.

ghost use Rattle.std.specs.Prelude.{◌≡◌, ◌<◌, ◌^◌, length, map};
ghost use Rattle.thin_form.specs.Design.{IsAscending};
ghost use Rattle.thin_form.specs.Netlist.{IsNumberIn, IsBitIn};
ghost use Rattle.thin_form.specs.Kept.{entries, all_bits};

use crate::kind::{Bit, Kind};

/// A source: its name, lent by the text, what it is, and its number as a bit.
#[derive(Clone, Copy)]
pub(crate) struct Entry<'a> {
    pub(crate) name: &'a [u8],
    pub(crate) kind: Kind,
    pub(crate) bit: u32,
}

/// The place of the source with a name, where the names ascend.
pub(crate) fn number_in(sources: &[Entry], name: &[u8]) -> Option<u32>
    requires few { length sources.now < 2 ^ 32 }
    requires ascending { IsAscending (map (λ s. s.name) (entries sources.now)) }
    ensures { IsNumberIn (entries sources.now) name.now result }
{
    match sources.binary_search_by_key(&name, |s| s.name) {
        Ok(n) => Some(n as u32),
        Err(_) => None,
    }
}

/// The place of the bit with a name, where the names ascend.
pub(crate) fn bit_in(bits: &[Bit], name: &[u8]) -> Option<u32>
    requires few { length bits.now < 2 ^ 32 }
    requires ascending { IsAscending (map (λ b. b.name) (all_bits bits.now)) }
    ensures { IsBitIn (all_bits bits.now) name.now result }
{
    match bits.binary_search_by_key(&name, |b| b.name) {
        Ok(n) => Some(n as u32),
        Err(_) => None,
    }
}
