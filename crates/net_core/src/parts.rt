//! What a net holds, while it is built and once it is finished.
ghost use Rattle.std.specs.Prelude.{◌≡◌, ℕ, ◌<◌, ◌^◌, [], ◌∷◌, ◌++◌, length, slice_get, Some, Contains, OnOk, OnErr, IfErr};
ghost use Rattle.net_view.specs.FlopNet.{Bit, Kind, IsBitAt, FindsBit};
ghost use Rattle.net_core.specs.declared.fault.NetFault.TheVariants.{Memory};
ghost use Rattle.net_core.specs.Net.{empty_net, with_gates, with_source, with_kind, with_bit};

use crate::bit_table::{BitTable, Place};
use crate::fault::NetFault;
use crate::names::Names;
use net_view::{Gate, SrcKind};
use std::alloc::Global;
use std::marker::Model;

/// The gates in one list, the sources' names and kinds, and the named bits.
#[derive(Drop)]
pub struct Parts {
    gates: Vec<Gate<u32, u32>>,
    names: Names,
    kinds: Vec<SrcKind<u32>>,
    bits: BitTable,
}

impl Model for Parts {
    ghost use Rattle.net_core.specs.Net.{Net};

    ghost Value = { Net };

    ghost view = { λ parts. record {
      gates = parts.gates.items;
      names = parts.names;
      kinds = parts.kinds.items;
      bits = parts.bits;
    } };
}

impl Parts {
    pub(crate) fn new(alloc: Global) -> Parts
        ensures { result ≡ empty_net }
    {
        Parts {
            gates: Vec::new(alloc),
            names: Names::new(alloc),
            kinds: Vec::new(alloc),
            bits: BitTable::new(alloc),
        }
    }

    pub(crate) fn gates(&self) -> &[Gate<u32, u32>]
        ensures { result.now ≡ self.now.gates }
    {
        self.gates.as_slice()
    }

    pub(crate) fn kinds(&self) -> &[SrcKind<u32>]
        ensures { result.now ≡ self.now.kinds }
    {
        self.kinds.as_slice()
    }

    pub(crate) fn source_name(&self, s: u32) -> &str
        requires { s < length self.now.names }
        ensures { slice_get self.now.names s ≡ Some result.now }
    {
        self.names.get(s)
    }

    pub(crate) fn bits(&self) -> &BitTable
        ensures { result.now ≡ self.now.bits }
    {
        &self.bits
    }

    /// One more gate.
    pub(crate) fn put_gate(&mut self, gate: Gate<u32, u32>) -> Result<(), NetFault>
        ensures ok { OnOk result (self.new ≡ with_gates self.old (self.old.gates ++ gate ∷ [])) }
        ensures err { OnErr result (self.new ≡ self.old) }
        ensures fault { IfErr result (λ fault. fault ≡ Memory) }
    {
        self.gates.push(gate)?;
        Ok(())
    }

    /// One more source, a port, and its node.
    pub(crate) fn put_source(&mut self, name: &str) -> Result<(), NetFault>
        requires few { length self.old.names < 2 ^ 32 }
        requires other { Contains self.old.names name.now → ⊥ }
        ensures ok { OnOk result (self.new ≡ with_source self.old name.now) }
        ensures err { OnErr result (self.new ≡ self.old) }
        ensures fault { IfErr result (λ fault. fault ≡ Memory) }
    {
        let s = self.names.len() as u32;
        self.gates.reserve(1)?;
        self.kinds.reserve(1)?;
        self.names.push(name)?;
        self.gates.push_reserved(Gate::Source(s));
        self.kinds.push_reserved(SrcKind::Port);
        Ok(())
    }

    /// Another kind of a source.
    pub(crate) fn put_kind(&mut self, s: u32, kind: SrcKind<u32>)
        requires { s < length self.old.kinds }
        ensures { self.new ≡ with_kind self.old s kind }
    {
        self.kinds[s as usize] = kind;
    }

    /// One more bit.
    pub(crate) fn put_bit(&mut self, name: &str, place: Place) -> Result<(), NetFault>
        requires { (b : ℕ) (bit : Bit) → IsBitAt self.old.bits b bit → bit.name ≡ name.now → ⊥ }
        ensures ok { OnOk result (self.new ≡ with_bit self.old (record { name = name.now; node = place.node; root = place.root })) }
        ensures err { OnErr result (self.new ≡ self.old) }
        ensures fault { IfErr result (λ fault. fault ≡ Memory) }
    {
        self.bits.push(name, place)
    }
}
