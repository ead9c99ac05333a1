//! A finished net.
ghost use Rattle.std.specs.Prelude.{◌≡◌};
ghost use Rattle.net_core.specs.Net.{IsFlat};

use crate::ids::{Node, Src, id_at, ids, ids_of_kind};
use crate::parts::Parts;
use net_view::{FlopNet, Gate, SrcKind, View};
use rdc_ids::IdSlice;
use std::marker::Model;

/// A net with flops, as its builder left it. Reading it takes no memory.
#[derive(Drop)]
pub struct FlatNet {
    parts: Parts,
}

impl Model for FlatNet {
    ghost use Rattle.net_core.specs.Net.{Net, IsFlat};

    ghost Value = { Net };

    ghost view = { λ net. net.parts };

    ghost invariant = { λ net. IsFlat net.parts };
}

impl FlatNet {
    pub(crate) fn of(parts: Parts) -> FlatNet
        requires { IsFlat parts }
        ensures { result ≡ parts }
    {
        FlatNet { parts }
    }
}

impl View for FlatNet {
    ghost use Rattle.std.specs.Prelude.{length};

    type Node = Node;

    type Src = Src;

    ghost gates = { λ net. net.gates };

    ghost source_count = { λ net. length net.names };

    ghost node_number = { λ n. n };

    ghost source_number = { λ s. s };

    fn nodes(&self) -> u32 {
        self.parts.gates().len() as u32
    }

    fn node(&self, n: u32) -> Option<Node> {
        IdSlice::new(self.parts.gates()).try_id(n as u64)
    }

    fn index(&self, n: Node) -> u32 {
        let _nodes = self.nodes();
        n.number() as u32
    }

    fn sources(&self) -> u32 {
        self.parts.kinds().len() as u32
    }

    fn src_index(&self, s: Src) -> u32 {
        let _sources = self.sources();
        s.number() as u32
    }

    fn gate(&self, n: Node) -> Gate<Node, Src> {
        let gates = self.parts.gates();
        ids(gates, self.parts.kinds(), gates[n.number() as usize])
    }
}

impl FlopNet for FlatNet {
    ghost names = { λ net. net.names };

    ghost kinds = { λ net. net.kinds };

    ghost named_bits = { λ net. net.bits };

    fn name(&self, s: Src) -> &str {
        self.parts.source_name(self.src_index(s))
    }

    fn kind(&self, s: Src) -> SrcKind<Node> {
        ids_of_kind(self.parts.gates(), self.parts.kinds()[s.number() as usize])
    }

    fn bits(&self) -> u32 {
        self.parts.bits().len() as u32
    }

    fn bit_name(&self, b: u32) -> &str {
        self.parts.bits().name(b)
    }

    fn bit_node(&self, b: u32) -> Node {
        id_at(self.parts.gates(), self.parts.bits().place(b).node)
    }

    fn bit_root(&self, b: u32) -> u32 {
        self.parts.bits().place(b).root
    }

    fn find(&self, name: &str) -> Option<u32> {
        self.parts.bits().find(name)
    }
}
