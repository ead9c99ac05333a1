//! The parts of a flat design.
ghost use Rattle.std.specs.Prelude.{◌≡◌, IfOk, map};
ghost use Rattle.elab_items.specs.Tables.{plan_of};
ghost use Rattle.vlog_elab.specs.Flat.{laid, places_of};

use design_form::{Parts, Signal, TopPort};
use elab_items::Plan;
use elab_scopes::Placed;
use rdc_outside::{Place, Seq};
use std::alloc::{AllocError, Global};

/// Where the signals are declared.
pub(crate) fn places_of(alloc: Global, signals: &[Placed]) -> Result<Vec<Place>, AllocError>
    ensures { IfOk result (λ ps. ps.items ≡ places_of signals.now) }
{
    let mut places = Vec::with_capacity(alloc, signals.len())?;
    for one in signals {
        places.push(one.place)?;
    }
    Ok(places)
}

/// The signals without their places.
fn signals_of(alloc: Global, signals: Vec<Placed>) -> Result<Vec<Signal>, AllocError>
    ensures { IfOk result (λ ss. ss.items ≡ map (λ s. s.signal) signals.items) }
{
    Ok(signals.into_iter().map(|one| one.signal).collect(alloc)?)
}

/// The parts of a design, whose signals are given in their order.
pub(crate) fn laid(
    alloc: Global,
    signals: Vec<Placed>,
    ports: Vec<TopPort>,
    plan: Plan,
) -> Result<Parts, AllocError>
    ensures { IfOk result (λ d. d ≡ laid signals.items ports.items (plan_of plan)) }
{
    let signals = signals_of(alloc, signals)?;
    let boxes = plan.boxes;
    let draft = plan.draft;
    Ok(Parts {
        signals: Seq::from_vec(signals),
        drivers: Seq::from_vec(draft.drivers),
        processes: Seq::from_vec(draft.processes),
        gates: Seq::from_vec(draft.gates),
        boxes: Seq::from_vec(boxes),
        ports: Seq::from_vec(ports),
    })
}
