//! The pin order: all flops, each after those in the cone of its pin.

ghost use Rattle.std.specs.Prelude.{◌≡◌, ◌↔◌, ℕ, ◌+◌, ◌<◌, ◌≤◌, ◌^◌, List, [], length, map, slice_index, slice_index_or, Some, None, IfOk, MatchOption, All, Contains};
ghost use Rattle.net_view.specs.FlopNet.{IsFlopAt};
ghost use Rattle.net_view.specs.View.{IsGateAt};
ghost use Rattle.net_view.specs.Cone.{ReadsSource, Lists};
ghost use Rattle.net_view.specs.Queue.{Needs};
ghost use Rattle.net_view.specs.PinOrder.{IsFlop, IsFlopNode, OrderAnswers, name_of};
ghost use Rattle.net_view.specs.Places.{AreNamed, AreFlops, IsNamedInOrder, IsPlaced, ArePlaces, IsNeedOf, HaveNeeds};

use crate::cones::{cone, gate_at};
use crate::fault::{ConeFault, OrderFault};
use crate::flop_net::{FlopNet, SrcKind};
use crate::gate::Gate;
use crate::queue::{Listing, least_first};
use crate::view::View;
use rdc_outside::Seq;
use std::alloc::Global;

/// The flop that a node is.
fn flop_at<V: FlopNet>(view: &V, n: u32) -> Option<V::Src>
    requires { n < length (V.gates view.now) }
    ensures { MatchOption result ((s : ℕ) → IsFlopNode (V.gates view.now) (V.kinds view.now) n s → ⊥)
        (λ id. (V.source_number id < V.source_count view.now) × IsFlopNode (V.gates view.now) (V.kinds view.now) n (V.source_number id)) }
{
    let _nodes = view.nodes();
    let Gate::Source(s) = gate_at(view, n) else {
        return None;
    };
    match view.kind(s) {
        SrcKind::Flop(_) => Some(s),
        SrcKind::Port | SrcKind::BoxOut => None,
    }
}

/// All flops, in node order, each with its name and its number.
fn named_flops<'a, V: FlopNet>(
    alloc: Global,
    view: &'a V,
) -> Result<Vec<(&'a str, u32, V::Src)>, ConeFault>
    ensures few { IfOk result (λ flops. length flops.items < 2 ^ 32) }
    ensures named { IfOk result (λ flops. AreNamed V.source_number (V.source_count view.now) (V.names view.now) flops.items) }
    ensures flops { IfOk result (λ flops. AreFlops (V.gates view.now) (V.kinds view.now) (length (V.gates view.now)) (map (λ f. f.1) flops.items)) }
{
    let mut flops = Vec::new(alloc);
    'nodes: for n in 0..view.nodes() {
        if let Some(s) = flop_at(view, n) {
            flops.push((view.name(s), view.src_index(s), s))?;
        }
    }
    Ok(flops)
}

/// The flops without their names and numbers.
fn bare_flops<'a, S: Drop>(
    alloc: Global,
    flops: Vec<(&'a str, u32, S)>,
) -> Result<Vec<S>, ConeFault>
    ensures { IfOk result (λ bare. bare.items ≡ map (λ f. f.2) flops.entry.items) }
{
    Ok(flops.into_iter().map(|(_, _, s)| s).collect(alloc)?)
}

/// The flops in name order, those of equal names by number.
fn flops_by_name<V: FlopNet>(alloc: Global, view: &V) -> Result<Vec<V::Src>, ConeFault>
    ensures few { IfOk result (λ flops. length flops.items < 2 ^ 32) }
    ensures inside { IfOk result (λ flops. All (λ s. V.source_number s < V.source_count view.now) flops.items) }
    ensures order { IfOk result (λ flops. IsNamedInOrder (V.names view.now) (V.kinds view.now) (map V.source_number flops.items)) }
{
    let _nodes = view.nodes();
    let _bits = view.bits();
    let mut flops = named_flops(alloc, view)?;
    flops.sort_unstable_by_key(|flop| (flop.0, flop.1));
    bare_flops(alloc, flops)
}

/// The place of each source among some, None for the others.
fn places_of<V: View>(
    alloc: Global,
    view: &V,
    flops: &[V::Src],
) -> Result<Vec<Option<u32>>, ConeFault>
    requires few { length flops.now < 2 ^ 32 }
    requires inside { All (λ s. V.source_number s < V.source_count view.now) flops.now }
    ensures { IfOk result (λ places. IsPlaced (map V.source_number flops.now) (V.source_count view.now) places.items) }
{
    let mut places = vec![in alloc; None; view.sources() as usize]?;
    'flops: for k in 0..flops.len() as u32 {
        places[view.src_index(flops[k as usize]) as usize] = Some(k);
    }
    Ok(places)
}

/// The places of the flops in the cone of a flop's pin.
fn flop_needs<V: FlopNet>(
    alloc: Global,
    view: &V,
    flop: V::Src,
    places: &[Option<u32>],
) -> Result<Seq<u32>, ConeFault>
    requires inside { V.source_number flop < V.source_count view.now }
    requires each_source { length places.now ≡ V.source_count view.now }
    ensures { IfOk result (λ needs. (j : ℕ) → Contains needs j ↔ IsNeedOf (V.gates view.now) (V.kinds view.now) places.now (V.source_number flop) j) }
{
    let _bits = view.bits();
    let SrcKind::Flop(kind) = view.kind(flop) else {
        return Ok(Seq::new(alloc));
    };
    match kind.pin {
        None => Ok(Seq::new(alloc)),
        Some(pin) => pin_needs(alloc, view, pin, places),
    }
}

/// The places of the flops in the cone of a pin.
fn pin_needs<V: FlopNet>(
    alloc: Global,
    view: &V,
    pin: V::Node,
    places: &[Option<u32>],
) -> Result<Seq<u32>, ConeFault>
    requires inside { V.node_number pin < length (V.gates view.now) }
    requires each_source { length places.now ≡ V.source_count view.now }
    ensures { IfOk result (λ needs. (read : List ℕ) × Lists (ReadsSource (V.gates view.now) (V.node_number pin)) read × ArePlaces read places.now needs) }
{
    let _nodes = view.nodes();
    let mut needs = Seq::new(alloc);
    let read = cone(alloc, view, pin)?;
    'read: for s in &read {
        if let Some(k) = places[view.src_index(*s) as usize] {
            needs.push(k)?;
        }
    }
    Ok(needs)
}

/// What each of the flops needs, by place.
fn all_needs<V: FlopNet>(
    alloc: Global,
    view: &V,
    flops: &[V::Src],
    places: &[Option<u32>],
) -> Result<Vec<Seq<u32>>, ConeFault>
    requires inside { All (λ s. V.source_number s < V.source_count view.now) flops.now }
    requires each_source { length places.now ≡ V.source_count view.now }
    ensures { IfOk result (λ needs. HaveNeeds (V.gates view.now) (V.kinds view.now) places.now (map V.source_number flops.now) (length flops.now) needs.items) }
{
    let mut needs = Vec::new(alloc);
    'flops: for flop in flops {
        needs.push(flop_needs(alloc, view, *flop, places)?)?;
    }
    Ok(needs)
}

/// The flops at some places.
fn flops_at<V: View>(
    alloc: Global,
    _view: &V,
    flops: &[V::Src],
    places: &[u32],
) -> Result<Vec<V::Src>, ConeFault>
    requires { All (λ k. k < length flops.now) places.now }
    ensures { IfOk result (λ found. map V.source_number found.items ≡ map (slice_index (map V.source_number flops.now)) places.now) }
{
    let mut found = Vec::new(alloc);
    'places: for k in places {
        found.push(flops[*k as usize])?;
    }
    Ok(found)
}

/// A copy of a text's bytes.
fn bytes_of(alloc: Global, text: &str) -> Result<Seq<u8>, ConeFault>
    ensures { IfOk result (λ bytes. bytes ≡ text.now) }
{
    let mut bytes = Vec::new(alloc);
    bytes.extend_from_slice(text.as_bytes())?;
    Ok(Seq::from_vec(bytes))
}

/// The names of some flops.
fn names_of<V: FlopNet>(
    alloc: Global,
    view: &V,
    flops: &[V::Src],
) -> Result<Seq<Seq<u8>>, ConeFault>
    requires { All (λ s. V.source_number s < V.source_count view.now) flops.now }
    ensures { IfOk result (λ names. names ≡ map (name_of (V.names view.now)) (map V.source_number flops.now)) }
{
    let mut names = Seq::new(alloc);
    'flops: for flop in flops {
        names.push(bytes_of(alloc, view.name(*flop))?)?;
    }
    Ok(names)
}

/// All flops, each after those in the cone of its pin, the first by name next each time; or the names of a cycle.
pub fn pin_order<V: FlopNet>(alloc: Global, view: &V) -> Result<Vec<V::Src>, OrderFault>
    ensures { OrderAnswers V.source_number (V.gates view.now) (V.names view.now) (V.kinds view.now) result }
{
    let flops = flops_by_name(alloc, view)?;
    let places = places_of(alloc, view, &flops)?;
    let needs = all_needs(alloc, view, &flops, &places)?;
    match least_first(alloc, &needs)? {
        Listing::Order(order) => Ok(flops_at(alloc, view, &flops, &order)?),
        Listing::Cycle(cycle) => {
            let cycle = flops_at(alloc, view, &flops, &cycle)?;
            Err(OrderFault::Loop(names_of(alloc, view, &cycle)?))
        }
    }
}
