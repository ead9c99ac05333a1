//! A net of a clock, a reset and a flop, built and read back.
ghost use Rattle.std.specs.Prelude.{◌≡◌, OnOk, IfOk};
ghost use Rattle.core_tests.specs.BuiltNet.{flop_q, sources_net, logic_net, named_net, built_net};

use net_core::{FlatNet, NetBuilder, NetFault, Node, Src};
use net_view::{FlopNet, FlopOf, Gate, SrcKind, View};
use std::alloc::{AllocError, Global};
use std::test::Fail;

/// The sources r, c and q: the source q, and the nodes of r, c and q.
fn sources(alloc: Global) -> Result<(NetBuilder, Src, Node, Node, Node), NetFault>
    ensures net { IfOk result (λ r. r.0 ≡ sources_net) }
    ensures source { IfOk result (λ r. r.1 ≡ 2) }
    ensures nodes { IfOk result (λ r. (r.2 ≡ 0) × (r.3 ≡ 1) × (r.4 ≡ 2)) }
{
    let mut net = NetBuilder::new(alloc);
    let (_, r) = net.source("r")?;
    let (_, c) = net.source("c")?;
    let (source, q) = net.source("q")?;
    Ok((net, source, r, c, q))
}

/// The bits c, q, r and s, which is a copy of r.
fn name_bits(net: &mut NetBuilder, r: Node, c: Node, q: Node) -> Result<(), NetFault>
    requires net { net.old ≡ logic_net }
    requires r { r ≡ 0 }
    requires c { c ≡ 1 }
    requires q { q ≡ 2 }
    ensures { OnOk result (net.new ≡ named_net) }
{
    net.bit("c", c, 0)?;
    net.bit("q", q, 1)?;
    net.bit("r", r, 2)?;
    net.bit("s", r, 2)?;
    Ok(())
}

/// What q is.
fn flop(next: Node, pin: Node) -> FlopOf<Node>
    requires next { next ≡ 3 }
    requires pin { pin ≡ 0 }
    ensures { result ≡ flop_q }
{
    FlopOf {
        clock: Some(1),
        rising: true,
        next: Some(next),
        calms: true,
        pin: Some(pin),
        high: false,
        reset: false,
        root: 2,
    }
}

/// The whole net, and the source q.
fn built(alloc: Global) -> Result<(FlatNet, Src), NetFault>
    ensures net { IfOk result (λ r. r.0 ≡ built_net) }
    ensures source { IfOk result (λ r. r.1 ≡ 2) }
{
    let (mut net, source, r, c, q) = sources(alloc)?;
    let next = net.add(Gate::Not(q))?;
    name_bits(&mut net, r, c, q)?;
    net.kind(source, SrcKind::Flop(flop(next, r)));
    Ok((net.finish(), source))
}

/// Each bit with its node and its root.
fn shown_bits(alloc: Global, net: &FlatNet) -> Result<String, AllocError> {
    let mut all = String::new(alloc);
    'bits: for b in 0..net.bits() {
        let shown = format!(in alloc;
            "{} {} {}\n",
            net.bit_name(b),
            net.bit_node(b).number(),
            net.bit_root(b)
        )?;
        all.push_str(&shown)?;
    }
    Ok(all)
}

/// The number of a node, or 99.
fn number_of(node: Option<Node>) -> u64 {
    match node {
        Some(n) => n.number(),
        None => 99,
    }
}

/// What q is: its clock, its data, its pin and the pin's root.
fn shown_flop(net: &FlatNet, q: Src) -> Option<(Option<u32>, u64, u64, u32)>
    requires net { net.now ≡ built_net }
    requires q { q ≡ 2 }
{
    match net.kind(q) {
        SrcKind::Flop(f) => Some((f.clock, number_of(f.next), number_of(f.pin), f.root)),
        _ => None,
    }
}

/// What node 3 inverts, or 99.
fn inverted(net: &FlatNet) -> u64 {
    let Some(node) = net.node(3) else {
        return 99;
    };
    match net.gate(node) {
        Gate::Not(a) => a.number(),
        _ => 99,
    }
}

#[test]
fn a_built_net_is_read_back(rt: HostRuntime) -> Result<(), Fail> {
    let (net, q) = built(rt.alloc())?;
    assert_eq!(rt; (net.nodes(), net.sources(), net.bits()), (4, 3, 4));
    assert_eq!(rt;
        shown_bits(rt.alloc(), &net)?.as_str(),
        "c 1 0\nq 2 1\nr 0 2\ns 0 2\n"
    );
    assert_eq!(rt;
        (net.find("r"), net.find("s"), net.find("rs")),
        (Some(2), Some(3), None)
    );
    assert_eq!(rt; net.name(q), "q");
    assert_eq!(rt; shown_flop(&net, q), Some((Some(1), 3, 0, 2)));
    assert_eq!(rt; (inverted(&net), net.node(4).is_none()), (2, true));
    Ok(())
}
