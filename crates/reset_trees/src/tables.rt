//! A net's sources as tables by number.

ghost use Rattle.std.specs.Prelude.{◌≡◌, ◌<◌, length, slice_get, Some, IfOk, IfSome};
ghost use Rattle.std.specs.Option.{option_map};
ghost use Rattle.net_view.specs.View.{renumbered, IsGateAt};
ghost use Rattle.reset_trees.specs.Tables.{names_in};

use net_view::{FlopNet, FlopOf, Gate, SrcKind};
use std::alloc::{AllocError, Global};

/// The gate of a node, by number.
fn gate_at<V: FlopNet>(view: &V, n: u32) -> Gate<V::Node, V::Src>
    requires { n < length (V.gates view.now) }
    ensures { IsGateAt (V.gates view.now) n (renumbered V.node_number V.source_number result) }
{
    let Some(node) = view.node(n) else {
        unreachable!();
    };
    view.gate(node)
}

/// The number of a node, if there is one.
fn number_of<V: FlopNet>(view: &V, node: Option<V::Node>) -> Option<u32>
    requires { IfSome (option_map V.node_number node) (λ n. n < length (V.gates view.now)) }
    ensures { result ≡ option_map V.node_number node }
{
    match node {
        Some(node) => Some(view.index(node)),
        None => None,
    }
}

/// What drives a source, its nodes by number.
fn kind_of<V: FlopNet>(view: &V, source: V::Src) -> SrcKind<u32>
    requires { V.source_number source < V.source_count view.now }
    ensures { slice_get (V.kinds view.now) (V.source_number source) ≡ Some result }
{
    let _bits = view.bits();
    match view.kind(source) {
        SrcKind::Port => SrcKind::Port,
        SrcKind::BoxOut => SrcKind::BoxOut,
        SrcKind::Flop(flop) => SrcKind::Flop(FlopOf {
            clock: flop.clock,
            rising: flop.rising,
            next: number_of(view, flop.next),
            calms: flop.calms,
            pin: number_of(view, flop.pin),
            high: flop.high,
            reset: flop.reset,
            root: flop.root,
        }),
    }
}

/// What drives each source.
pub(crate) fn kinds_of<V: FlopNet>(alloc: Global, view: &V) -> Result<Vec<SrcKind<u32>>, AllocError>
    ensures { IfOk result (λ kinds. kinds.items ≡ V.kinds view.now) }
{
    let _bits = view.bits();
    let mut kinds = vec![in alloc; SrcKind::Port; view.sources() as usize]?;
    'nodes: for n in 0..view.nodes() {
        if let Gate::Source(source) = gate_at(view, n) {
            kinds[view.src_index(source) as usize] = kind_of(view, source);
        }
    }
    Ok(kinds)
}

/// The name of each source.
pub(crate) fn names_of<'a, V: FlopNet>(
    alloc: Global,
    view: &'a V,
) -> Result<Vec<&'a str>, AllocError>
    ensures { IfOk result (λ names. names_in names.items ≡ V.names view.now) }
{
    let _bits = view.bits();
    let mut names = vec![in alloc; ""; view.sources() as usize]?;
    'nodes: for n in 0..view.nodes() {
        if let Gate::Source(source) = gate_at(view, n) {
            names[view.src_index(source) as usize] = view.name(source);
        }
    }
    Ok(names)
}
