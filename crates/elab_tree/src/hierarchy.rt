//! Instances with all below them.
ghost use Rattle.std.specs.List.{list_any};
ghost use Rattle.std.specs.Prelude.{◌≡◌, ◌==◌, ◌⊎◌, ◌++◌, ◌∷◌, [], map, IfOk};
ghost use Rattle.elab_names.specs.declared.fault.ElabFault.TheVariants.{Memory, Recursion};
ghost use Rattle.elab_items.specs.Scopes.{ended};
ghost use Rattle.elab_items.specs.Tables.{lib_of, pending_of, plan_of};
ghost use Rattle.elab_scopes.specs.Tables.{Changes};
ghost use Rattle.elab_scopes.specs.Threads.{threaded};
ghost use Rattle.elab_tree.specs.Hierarchy.{begun, grown, grown_at, grown_in, own, own_placed, placed_in};
ghost use Rattle.elab_tree.specs.Tables.{state_of};

use crate::growth::Growth;
use crate::size::weighed;
use elab_binds::Library;
use elab_items::{Pending, Plan, items};
use elab_names::ElabFault;
use elab_scopes::open_scope;
use rdc_outside::{Place, Seq};
use sqlite_items::at;
use std::alloc::{AllocError, Global};
use std::mem;
use vlog_tree::Module;

/// Into the body of a module, which sees no name from outside.
#[tactic(auto, unfolding(crate::specs::Hierarchy::begun, elab_names::specs::Answers::and_then))]
fn begin(alloc: Global, p: &mut Plan, w: &Pending, module: &Module) -> Result<(), ElabFault>
    ensures { Changes result (plan_of p.new) (begun (pending_of w.now) «module».now (plan_of p.old)) }
{
    let entries = open_scope(
        alloc,
        &mut p.draft.drawing,
        w.prefix.as_slice(),
        &w.given,
        module.parameters.as_slice(),
        module.ports.as_slice(),
        module.items.as_slice(),
    )?;
    p.around.push(entries)?;
    Ok(())
}

/// And out of it.
#[tactic(auto, unfolding(elab_items::specs::Scopes::ended))]
fn end(p: &mut Plan)
    ensures { plan_of p.new ≡ ended (plan_of p.old) }
{
    p.draft.drawing.scope.leave();
    p.around.pop();
}

/// The own part of a module.
#[tactic(auto, unfolding(crate::specs::Hierarchy::own, elab_names::specs::Answers::and_then))]
fn own(
    alloc: Global,
    p: &mut Plan,
    library: &Library<'_>,
    w: &Pending,
    module: &Module,
) -> Result<(), ElabFault>
    ensures { Changes result (plan_of p.new) (own (lib_of library.now) (pending_of w.now) «module».now (plan_of p.old)) }
{
    begin(alloc, p, w, module)?;
    items(
        alloc,
        p,
        library,
        w.prefix.as_slice(),
        module.items.as_slice(),
    )?;
    end(p);
    Ok(())
}

/// A module within itself.
fn recursion(alloc: Global, name: &[u8], place: Place) -> ElabFault
    ensures { (result ≡ Memory) ⊎ (result ≡ Recursion name.now place) }
{
    match name.to_vec(alloc) {
        Ok(name) => ElabFault::Recursion(Seq::from_vec(name), place),
        Err(_) => ElabFault::Memory,
    }
}

/// A chain with one module more.
fn longer(alloc: Global, chain: &[usize], position: usize) -> Result<Vec<usize>, AllocError>
    ensures { IfOk result (λ c. c.items ≡ chain.now ++ position ∷ []) }
{
    let mut longer = chain.to_vec(alloc)?;
    longer.push(position)?;
    Ok(longer)
}

/// The own part of an instance, and the size then.
#[tactic(auto, unfolding(crate::specs::Hierarchy::own_placed, elab_names::specs::Answers::and_then))]
fn place_own(
    alloc: Global,
    g: &mut Growth,
    library: &Library<'_>,
    w: &Pending,
    module: &Module,
) -> Result<(), ElabFault>
    ensures { Changes result (state_of g.new) (own_placed (lib_of library.now) (pending_of w.now) «module».now (state_of g.old)) }
{
    let boxes = g.plan.boxes.len();
    let signals = g.plan.draft.drawing.signals.len();
    own(alloc, &mut g.plan, library, w, module)?;
    g.size = weighed(w.place, boxes, signals, &g.plan, g.size)?;
    Ok(())
}

/// Whether a module stands in a chain.
fn is_in(chain: &[usize], position: usize) -> bool
    ensures { result ≡ list_any (λ k. k == position) chain.now }
{
    chain.iter().any(|k| *k == position)
}

/// The same of an instance that may not stand within itself.
#[tactic(auto, unfolding(crate::specs::Hierarchy::placed_in))]
fn place_in(
    alloc: Global,
    g: &mut Growth,
    library: &Library<'_>,
    chain: &[usize],
    w: &Pending,
    module: &Module,
) -> Result<(), ElabFault>
    ensures { Changes result (state_of g.new) (placed_in (lib_of library.now) chain.now (pending_of w.now) «module».now (state_of g.old)) }
{
    if is_in(chain, w.position) {
        return Err(recursion(alloc, module.name.name.as_slice(), w.place));
    }
    place_own(alloc, g, library, w, module)
}

/// The instances within one, each with all below it.
#[cycle(hierarchy)]
fn inner(
    alloc: Global,
    g: &mut Growth,
    library: &Library<'_>,
    chain: &[usize],
    waiting: &[Pending],
    levels: u32,
) -> Result<(), ElabFault>
    ensures { Changes result (state_of g.new) (threaded (λ s x. grown levels (lib_of library.now) chain.now x s) (state_of g.old) (map pending_of waiting.now)) }
{
    for w in waiting {
        match instance(alloc, g, library, chain, w, levels) {
            Ok(()) => {}
            Err(fault) => return Err(fault),
        }
    }
    Ok(())
}

/// An instance of a module, with all below it.
#[cycle(hierarchy)]
#[tactic(auto, unfolding(crate::specs::Hierarchy::grown_in, elab_names::specs::Answers::and_then))]
fn instance_of(
    alloc: Global,
    g: &mut Growth,
    library: &Library<'_>,
    chain: &[usize],
    w: &Pending,
    module: &Module,
    levels: u32,
) -> Result<(), ElabFault>
    ensures { Changes result (state_of g.new) (grown_in (grown levels (lib_of library.now)) (lib_of library.now) chain.now (pending_of w.now) «module».now (state_of g.old)) }
{
    place_in(alloc, g, library, chain, w, module)?;
    let waiting = mem::replace(&mut g.plan.pending, Vec::new(alloc));
    let longer = longer(alloc, chain, w.position)?;
    inner(alloc, g, library, &longer, &waiting, levels)
}

/// An instance with all below it, of at most so many levels.
#[cycle(hierarchy)]
#[tactic(auto, unfolding(crate::specs::Hierarchy::grown, crate::specs::Hierarchy::grown_at))]
pub(crate) fn instance(
    alloc: Global,
    g: &mut Growth,
    library: &Library<'_>,
    chain: &[usize],
    w: &Pending,
    levels: u32,
) -> Result<(), ElabFault>
    ensures { Changes result (state_of g.new) (grown levels (lib_of library.now) chain.now (pending_of w.now) (state_of g.old)) }
{
    if levels == 0 {
        return Err(ElabFault::HierLimit(w.place));
    }
    match at(library.modules, w.position) {
        Some(module) => instance_of(alloc, g, library, chain, w, module, levels - 1),
        None => Ok(()),
    }
}
