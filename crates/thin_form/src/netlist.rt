//! The design that a text spells, its formulas as nodes.

ghost use Rattle.std.specs.Prelude.{◌≡◌, ◌<◌, length, slice_get, Some};
ghost use Rattle.thin_form.specs.Netlist.{IsLawful, IsNumberOf, FindsBit, name_at, kind_at, bit_of};
ghost use Rattle.thin_form.specs.Kept.{a_bit};

use crate::entry::{Entry, bit_in, number_in};
use crate::kind::{Bit, Kind, Node};
use std::marker::Model;

/// The sources and the named bits of a design in name order, their names lent by the text, and the nodes that its
/// expressions are. A source's number is its place among the sources, and it is also the number of its node; gates
/// follow, each over nodes before it.
#[derive(Drop)]
pub struct Netlist<'a> {
    pub(crate) sources: Vec<Entry<'a>>,
    pub(crate) bits: Vec<Bit<'a>>,
    pub(crate) nodes: Vec<Node>,
}

impl<'a> Model for Netlist<'a> {
    ghost use Rattle.thin_form.specs.Netlist.{Netlist, IsLawful};
    ghost use Rattle.thin_form.specs.Kept.{kept};

    ghost Value = { Netlist };

    ghost view = { λ d. kept d.sources.items d.bits.items d.nodes.items };

    ghost invariant = { λ d. IsLawful (kept d.sources.items d.bits.items d.nodes.items) };
}

impl<'a> Netlist<'a> {
    /// How many sources there are.
    pub fn sources(&self) -> u32
        ensures value { result ≡ length self.now.sources }
        ensures lawful { IsLawful self.now }
    {
        self.sources.len() as u32
    }

    /// The name of a source, lent by the text.
    pub fn name(&self, n: u32) -> &'a [u8]
        requires { n < length self.now.sources }
        ensures { result.now ≡ name_at self.now n }
    {
        self.sources[n as usize].name
    }

    /// What a source is.
    pub fn kind(&self, n: u32) -> Kind
        requires { n < length self.now.sources }
        ensures { result ≡ kind_at self.now n }
    {
        self.sources[n as usize].kind
    }

    /// The number of a source as a bit.
    pub fn bit_of(&self, n: u32) -> u32
        requires { n < length self.now.sources }
        ensures { result ≡ bit_of self.now n }
    {
        self.sources[n as usize].bit
    }

    /// The number of the source that has a name. Its cost grows with the logarithm of the number of sources.
    pub fn number(&self, name: &[u8]) -> Option<u32>
        ensures { IsNumberOf self.now name.now result }
    {
        number_in(&self.sources, name)
    }

    /// How many named bits there are.
    pub fn bits(&self) -> u32
        ensures { result ≡ length self.now.bits }
    {
        self.bits.len() as u32
    }

    /// A named bit.
    pub fn bit(&self, b: u32) -> Bit<'a>
        requires { b < length self.now.bits }
        ensures { slice_get self.now.bits b ≡ Some (a_bit result) }
    {
        self.bits[b as usize]
    }

    /// The number of the bit that has a name. Its cost grows with the logarithm of the number of bits.
    pub fn find(&self, name: &[u8]) -> Option<u32>
        ensures { FindsBit self.now name.now result }
    {
        bit_in(&self.bits, name)
    }

    /// How many nodes there are.
    pub fn nodes(&self) -> u32
        ensures { result ≡ length self.now.nodes }
    {
        self.nodes.len() as u32
    }

    /// A node.
    pub fn node(&self, k: u32) -> Node
        requires { k < length self.now.nodes }
        ensures { slice_get self.now.nodes k ≡ Some result }
    {
        self.nodes[k as usize]
    }
}
