//! Selects in the range of their signal.
ghost use Rattle.std.specs.Prelude.{◌≡◌, IsTrue};
ghost use Rattle.elab_sound.specs.Ranges.{begins, highest, holds, in_order, range_of, reaches, spans, starts};

use design_form::{Bounds, Design};
use vlog_const::Whole;
use vlog_tree::Part;

/// The range of a name.
#[tactic(auto, unfolding(design_form::specs::State::seen_in, design_form::specs::State::seen_as))]
pub(crate) fn range_of(design: &Design, name: &[u8]) -> Bounds
    ensures { result ≡ range_of design.now name.now }
{
    match design.signal(name) {
        Some(signal) => signal.bounds(),
        None => Bounds { msb: 0, lsb: 0 },
    }
}

/// The highest index of a range.
fn highest(range: Bounds) -> u32
    ensures { result ≡ highest range }
{
    range.msb.max(range.lsb)
}

/// Whether an index is one of the range.
#[tactic(auto, unfolding(crate::specs::Ranges::holds))]
pub(crate) fn holds(range: Bounds, index: Whole) -> bool
    ensures { result ≡ holds range index }
{
    let (lowest, highest) = (range.lowest() as u128, highest(range) as u128);
    !index.negative && (lowest <= index.magnitude && index.magnitude <= highest)
}

/// Whether two indices stand in the direction of the range.
#[tactic(auto, unfolding(crate::specs::Ranges::in_order))]
fn in_order(range: Bounds, first: Whole, second: Whole) -> bool
    ensures { result ≡ in_order range first second }
{
    if range.is_down() {
        second.magnitude <= first.magnitude
    } else {
        first.magnitude <= second.magnitude
    }
}

/// Whether the part from one index to another lies in the range, in its direction.
#[tactic(auto, unfolding(crate::specs::Ranges::spans))]
pub(crate) fn spans(range: Bounds, first: Whole, second: Whole) -> bool
    ensures { result ≡ spans range first second }
{
    (holds(range, first) && holds(range, second)) && in_order(range, first, second)
}

/// Whether so many indices from one of the range on are in it.
#[tactic(auto, unfolding(crate::specs::Ranges::holds, crate::specs::Ranges::begins))]
fn begins(part: Part, range: Bounds, index: Whole, count: u128) -> bool
    requires { IsTrue (holds range index) }
    ensures { result ≡ begins part range index count }
{
    let first = index.magnitude;
    match part {
        Part::Up => count <= highest(range) as u128 + 1 - first,
        Part::Fixed | Part::Down => count <= first + 1 - range.lowest() as u128,
    }
}

/// The same of an index that must be one of the range.
#[tactic(auto, unfolding(crate::specs::Ranges::starts))]
fn starts(part: Part, range: Bounds, start: Option<Whole>, count: u128) -> bool
    ensures { result ≡ starts part range start count }
{
    match start {
        None => true,
        Some(index) => holds(range, index) && begins(part, range, index, count),
    }
}

/// Whether a part of so many bits from an index on lies in the range. Of an index that is no constant the range is not asked.
#[tactic(auto, unfolding(crate::specs::Ranges::reaches))]
pub(crate) fn reaches(part: Part, range: Bounds, start: Option<Whole>, count: u128) -> bool
    ensures { result ≡ reaches part range start count }
{
    1 <= count && starts(part, range, start, count)
}
