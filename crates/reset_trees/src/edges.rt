//! The edges of the flops with data.

ghost use Rattle.std.specs.Prelude.{◌≡◌, ℕ, ◌<◌, List, length, MatchOption, IfOk};
ghost use Rattle.cons_bind.specs.Names.{net_of};
ghost use Rattle.cons_bind.specs.declared.bound.BoundForm.{BoundForm as DeclaredForm};
ghost use Rattle.reset_trees.specs.Marking.{AreLevels, data_in};
ghost use Rattle.reset_trees.specs.Problems.{IsEdge, AreEdges};
ghost use Rattle.reset_trees.specs.Reads.{HasData};

use crate::answers::{Mark, Marked};
use crate::cone::cone_of;
use crate::same::is_same;
use net_view::{FlopNet, FlopOf, SrcKind};
use rdc_outside::Seq;
use std::alloc::{AllocError, Global};

/// The flop of a source and its data, if it is a flop that has some.
fn data_of(kind: &SrcKind<u32>) -> Option<(FlopOf<u32>, u32)>
    ensures { result ≡ data_in kind.now }
{
    match kind {
        SrcKind::Port | SrcKind::BoxOut => None,
        SrcKind::Flop(flop) => match flop.next {
            Some(next) => Some((*flop, next)),
            None => None,
        },
    }
}

/// The edge of a source, if it is a flop with data.
fn edge_of<V: FlopNet>(
    alloc: Global,
    view: &V,
    kinds: &[SrcKind<u32>],
    levels: &[Option<bool>],
    flop: u32,
) -> Result<Option<Marked>, AllocError>
    requires kinds { kinds.now ≡ V.kinds view.now }
    requires levels { length levels.now ≡ length kinds.now }
    requires flop { flop < length kinds.now }
    ensures { IfOk result (λ found. (lines : List DeclaredForm) → AreLevels lines levels.now → let net = net_of (V.gates view.now) (V.names view.now) (V.kinds view.now) (V.named_bits view.now) in
        MatchOption found (HasData net flop → ⊥) (λ edge. (edge.flop ≡ flop) × HasData net flop × IsEdge net lines edge)) }
{
    let _bits = view.bits();
    let _nodes = view.nodes();
    let Some((connections, next)) = data_of(&kinds[flop as usize]) else {
        return Ok(None);
    };
    let Ok(read) = cone_of(alloc, view, next) else {
        return Err(AllocError);
    };
    let mark = if is_same(&connections, read.as_slice(), kinds, levels) {
        Mark::Same
    } else {
        Mark::Asked
    };
    Ok(Some(Marked {
        flop,
        by: None,
        mark,
    }))
}

/// The edge of each flop with data.
pub(crate) fn edges_of<V: FlopNet>(
    alloc: Global,
    view: &V,
    kinds: &[SrcKind<u32>],
    levels: &[Option<bool>],
) -> Result<Seq<Marked>, AllocError>
    requires kinds { kinds.now ≡ V.kinds view.now }
    requires levels { length levels.now ≡ length kinds.now }
    ensures { IfOk result (λ edges. (lines : List DeclaredForm) → AreLevels lines levels.now → let net = net_of (V.gates view.now) (V.names view.now) (V.kinds view.now) (V.named_bits view.now) in
        AreEdges net lines edges) }
{
    let _bits = view.bits();
    let _sources = view.sources();
    let mut edges = Seq::new(alloc);
    'sources: for flop in 0..kinds.len() as u32 {
        if let Some(edge) = edge_of(alloc, view, kinds, levels, flop)? {
            edges.push(edge)?;
        }
    }
    Ok(edges)
}
