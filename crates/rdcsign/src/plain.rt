//! A design of the first form as a net, for what is generic over nets.

ghost use Rattle.std.specs.Prelude.{◌≡◌, ◌≤◌, List, length};
ghost use Rattle.std.specs.Str.{IsUtf8};
ghost use Rattle.thin_form.specs.Netlist.{design_of};
ghost use Rattle.thin_cons.specs.declared.role.Role.{Role};
ghost use Rattle.run_model.specs.Agrees.{Agrees};
ghost use Rattle.rdcsign.specs.DesignMachine.{machine_of};
ghost use Rattle.rdcsign.specs.PlainNet.{net_machine, HasBitValues};

use net_view::{FlopNet, FlopOf, Gate, SrcKind, View};
use thin_form::{Kind, Netlist, Node as FormNode};

/// A node of a plain net.
#[derive(Clone, Copy, Debug, PartialEq, Eq)]
pub struct Node(u32);

/// A source of a plain net.
#[derive(Clone, Copy, Debug, PartialEq, Eq)]
pub struct Port(u32);

/// The design as a net: its nodes are gates, its sources and bits have the numbers that they have in the design.
#[derive(Drop)]
pub struct PlainNet<'d, 'a> {
    design: &'d Netlist<'a>,
    ghost small: { length design.now.nodes ≤ 16777216 },
}

impl<'d, 'a> PlainNet<'d, 'a> {
    pub fn new(design: &'d Netlist<'a>) -> PlainNet<'d, 'a>
        requires { length design.now.nodes ≤ 16777216 }
        ensures { result.design.now ≡ design.now }
    {
        PlainNet { design }
    }
}

impl<'d, 'a> View for PlainNet<'d, 'a> {
    ghost use Rattle.std.specs.Prelude.{length};
    ghost use Rattle.rdcsign.specs.PlainNet.{gates_of};

    type Node = Node;

    type Src = Port;

    ghost gates = { λ net. gates_of net.design.now };

    ghost source_count = { λ net. length net.design.now.sources };

    ghost node_number = { λ n. n.0 };

    ghost source_number = { λ s. s.0 };

    fn nodes(&self) -> u32 {
        let _sources = self.design.sources();
        self.design.nodes()
    }

    fn node(&self, n: u32) -> Option<Node> {
        if n < self.design.nodes() {
            Some(Node(n))
        } else {
            None
        }
    }

    fn index(&self, n: Node) -> u32 {
        n.0
    }

    fn sources(&self) -> u32 {
        self.design.sources()
    }

    fn src_index(&self, s: Port) -> u32 {
        s.0
    }

    fn gate(&self, n: Node) -> Gate<Node, Port> {
        match self.design.node(n.0) {
            FormNode::Source(s) => Gate::Source(Port(s)),
            FormNode::Not(a) => Gate::Not(Node(a)),
            FormNode::And(a, b) => Gate::And(Node(a), Node(b)),
            FormNode::Or(a, b) => Gate::Or(Node(a), Node(b)),
        }
    }
}

impl<'d, 'a> FlopNet for PlainNet<'d, 'a> {
    ghost use Rattle.rdcsign.specs.PlainNet.{names_of, kinds_of, bits_from};

    ghost names = { λ net. names_of net.design.now };

    ghost kinds = { λ net. kinds_of net.design.now };

    ghost named_bits = { λ net. bits_from 0 net.design.now.bits };

    fn name(&self, s: Port) -> &str {
        let _sources = self.design.sources();
        text(self.design.name(s.0))
    }

    fn kind(&self, s: Port) -> SrcKind<Node> {
        let _sources = self.design.sources();
        match self.design.kind(s.0) {
            Kind::Input => SrcKind::Port,
            Kind::Register(flop) => SrcKind::Flop(FlopOf {
                clock: Some(flop.clock),
                rising: true,
                next: Some(Node(flop.data)),
                calms: true,
                pin: Some(Node(flop.pin)),
                high: flop.high,
                reset: flop.reset,
                root: self.design.bit_of(flop.pin),
            }),
        }
    }

    fn bits(&self) -> u32 {
        let _sources = self.design.sources();
        self.design.bits()
    }

    fn bit_name(&self, b: u32) -> &str {
        let _sources = self.design.sources();
        text(self.design.bit(b).name)
    }

    fn bit_node(&self, b: u32) -> Node {
        Node(self.design.bit(b).node)
    }

    fn bit_root(&self, b: u32) -> u32 {
        b
    }

    fn find(&self, name: &str) -> Option<u32> {
        let _sources = self.design.sources();
        self.design.find(name.as_bytes())
    }
}

/// A name as text: identifiers are ASCII.
fn text(name: &[u8]) -> &str
    requires { IsUtf8 name.now }
    ensures { result.now ≡ name.now }
{
    match std::str::from_utf8(name) {
        Ok(text) => text,
        Err(_) => unreachable!(),
    }
}

/// The net's machine is the design's, so that what is proved of one holds of the other.
pub fn net_is_design<'d, 'a>(net: &PlainNet<'d, 'a>)
    ensures machine { (roles : List Role) → Agrees (net_machine net.now.design.now roles) (machine_of (design_of net.now.design.now) roles) }
    ensures bits { HasBitValues net.now.design.now }
{
    let _sources = net.design.sources();
}
