//! What a node's logic reads, by numbers.

ghost use Rattle.std.specs.Prelude.{◌<◌, ◌≡◌, length, map, All, IfOk};
ghost use Rattle.net_view.specs.Cone.{ReadsSource, Lists};

use net_view::{ConeFault, FlopNet, cone};
use rdc_outside::Seq;
use std::alloc::{AllocError, Global};

/// The numbers of some sources.
pub(crate) fn numbers_of<V: FlopNet>(
    alloc: Global,
    view: &V,
    sources: &[V::Src],
) -> Result<Seq<u32>, AllocError>
    requires { All (λ s. V.source_number s < V.source_count view.now) sources.now }
    ensures { IfOk result (λ numbers. numbers ≡ map V.source_number sources.now) }
{
    let mut numbers = Seq::new(alloc);
    'sources: for source in sources {
        numbers.push(view.src_index(*source))?;
    }
    Ok(numbers)
}

/// The sources that a node's logic reads, ascending.
pub(crate) fn cone_of<V: FlopNet>(alloc: Global, view: &V, node: u32) -> Result<Seq<u32>, ConeFault>
    requires { node < length (V.gates view.now) }
    ensures { IfOk result (λ read. Lists (ReadsSource (V.gates view.now) node) read) }
{
    let _nodes = view.nodes();
    let Some(root) = view.node(node) else {
        unreachable!();
    };
    let read = cone(alloc, view, root)?;
    Ok(numbers_of(alloc, view, &read)?)
}
