//! The problems of the flops of a net, each with what structure alone says of it.

ghost use Rattle.std.specs.Prelude.{IfOk};
ghost use Rattle.cons_bind.specs.Binding.{forms_of};
ghost use Rattle.cons_bind.specs.Names.{net_of};
ghost use Rattle.reset_trees.specs.Domains.{AreInside};
ghost use Rattle.reset_trees.specs.Problems.{AreEdges, AreCalms};
ghost use Rattle.reset_trees.specs.Trees.{ArePinCones};

use crate::answers::Marked;
use crate::calms::calms_of;
use crate::edges::edges_of;
use crate::levels::levels_of;
use crate::tables::kinds_of;
use crate::trees::Trees;
use cons_bind::Bound;
use net_view::FlopNet;
use rdc_outside::Seq;
use std::alloc::{AllocError, Global};

/// The edge of each flop with data, by source number, and whether it is the same.
///
/// It asks for the cone of each flop's data by itself, so it costs what the cones cost.
pub fn edge_marks<V: FlopNet>(
    alloc: Global,
    view: &V,
    bound: &Bound,
) -> Result<Seq<Marked>, AllocError>
    requires { AreInside (V.source_count view.now) (forms_of bound.now.lines) }
    ensures { IfOk result (λ edges. AreEdges (net_of (V.gates view.now) (V.names view.now) (V.kinds view.now) (V.named_bits view.now)) (forms_of bound.now.lines) edges) }
{
    let _bits = view.bits();
    let kinds = kinds_of(alloc, view)?;
    let levels = levels_of(alloc, view.sources(), bound.lines.as_slice())?;
    edges_of(alloc, view, &kinds, &levels)
}

/// The calm of each flop with a pin by each source of its cone that can calm, by flop and then by source, and whether it
/// is direct.
pub fn calm_marks<V: FlopNet>(
    alloc: Global,
    view: &V,
    trees: &Trees,
    bound: &Bound,
) -> Result<Seq<Marked>, AllocError>
    requires trees { ArePinCones (net_of (V.gates view.now) (V.names view.now) (V.kinds view.now) (V.named_bits view.now)) trees.now.pins }
    requires lines { AreInside (V.source_count view.now) (forms_of bound.now.lines) }
    ensures { IfOk result (λ calms. AreCalms (net_of (V.gates view.now) (V.names view.now) (V.kinds view.now) (V.named_bits view.now)) (forms_of bound.now.lines) calms) }
{
    let _bits = view.bits();
    let kinds = kinds_of(alloc, view)?;
    let levels = levels_of(alloc, view.sources(), bound.lines.as_slice())?;
    calms_of(alloc, view, &kinds, &levels, trees.pins.as_slice())
}
