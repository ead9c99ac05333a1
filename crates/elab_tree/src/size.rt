//! How large a design is.
ghost use Rattle.std.specs.Prelude.{◌≡◌, ◌-◌, drop, length};
ghost use Rattle.elab_names.specs.Answers.{Answers};
ghost use Rattle.elab_scopes.specs.Threads.{threaded};
ghost use Rattle.elab_items.specs.Tables.{plan_of};
ghost use Rattle.elab_tree.specs.Sizes.{counted, signal_counted, weighed};

use elab_items::Plan;
use elab_names::ElabFault;
use elab_scopes::Placed;
use rdc_outside::Place;

/// A design of this size is too large.
const LIMIT: u64 = 1 << 20;

/// So many more, which stand at a place.
#[tactic(auto, unfolding(crate::specs::Sizes::counted, crate::specs::Sizes::limit))]
fn counted(place: Place, more: usize, size: u32) -> Result<u32, ElabFault>
    ensures { Answers (λ n. n) result (counted place more size) }
{
    if LIMIT <= more as u64 {
        return Err(ElabFault::Heavy(place));
    }
    let size = size as u64 + more as u64;
    if LIMIT <= size {
        return Err(ElabFault::Heavy(place));
    }
    Ok(size as u32)
}

/// The bits of one more signal.
fn signal_counted(place: Place, one: &Placed, size: u32) -> Result<u32, ElabFault>
    ensures { Answers (λ n. n) result (signal_counted place size one.now) }
{
    counted(place, one.signal.bounds().width(), size)
}

/// The bits of more signals.
fn signals_counted(place: Place, more: &[Placed], size: u32) -> Result<u32, ElabFault>
    ensures { Answers (λ n. n) result (threaded (signal_counted place) size more.now) }
{
    let mut size = size;
    for one in more {
        match signal_counted(place, one, size) {
            Ok(now) => size = now,
            Err(fault) => return Err(fault),
        }
    }
    Ok(size)
}

/// The signals behind the first so many.
fn behind(signals: &[Placed], count: usize) -> &[Placed]
    ensures { result.now ≡ drop count signals.now }
{
    if signals.len() < count {
        return &[];
    }
    let (_, more) = signals.split_at(count);
    more
}

/// What a module's own part adds: the instances, the boxes behind the first `boxes`, and the bits of the signals behind the
/// first `signals`.
#[tactic(auto, unfolding(crate::specs::Sizes::weighed, elab_names::specs::Answers::and_then))]
pub(crate) fn weighed(
    place: Place,
    boxes: usize,
    signals: usize,
    p: &Plan,
    size: u32,
) -> Result<u32, ElabFault>
    ensures { Answers (λ n. n) result (weighed place boxes signals (plan_of p.now) size) }
{
    let size = counted(place, p.pending.len(), size)?;
    let size = counted(place, p.boxes.len().saturating_sub(boxes), size)?;
    signals_counted(place, behind(&p.draft.drawing.signals, signals), size)
}
