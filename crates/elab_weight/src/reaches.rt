//! The indices that a select by constants covers, and the bits that have them.
ghost use Rattle.std.specs.Prelude.{◌≡◌, ◌<◌, ◌+◌, ◌-◌, ◌^◌, length, min};
ghost use Rattle.elab_weight.specs.Kept.{reach_of, short};
ghost use Rattle.elab_weight.specs.Reaches.{Reach, above, at_least, between, further, reach, reach_of_one, reached};

use design_form::Bounds;
use vlog_const::Whole;
use vlog_tree::Part;

/// Indices from `low` up to, and without, `high`, as far as 128 bits count.
#[derive(Clone, Copy)]
pub(crate) struct Covered {
    low: u128,
    high: u128,
}

/// A number, where it is an index.
#[tactic(auto, unfolding(crate::specs::Reaches::at_least))]
fn at_least(i: Whole) -> u128
    ensures { result ≡ at_least i }
{
    if i.negative { 0 } else { i.magnitude }
}

/// The index above a number.
#[tactic(auto, unfolding(crate::specs::Reaches::above))]
fn above(i: Whole) -> u128
    ensures { result ≡ min (above i) (2 ^ 128 - 1) }
{
    if i.negative {
        return 0;
    }
    i.magnitude.saturating_add(1)
}

/// A number and n more.
#[tactic(auto, unfolding(crate::specs::Reaches::further))]
fn further(i: Whole, n: u128) -> u128
    ensures { result ≡ min (further i n) (2 ^ 128 - 1) }
{
    if i.negative {
        return n.saturating_sub(i.magnitude);
    }
    i.magnitude.saturating_add(n)
}

/// The index above a number, and n less.
#[tactic(auto, unfolding(crate::specs::Reaches::above))]
fn below(i: Whole, n: u128) -> u128
    ensures { result ≡ min (above i - n) (2 ^ 128 - 1) }
{
    if i.negative || i.magnitude < n {
        return 0;
    }
    (i.magnitude - n).saturating_add(1)
}

/// What a select of one index covers.
pub(crate) fn reach_of_one(i: Whole) -> Covered
    ensures { reach_of result ≡ short (reach_of_one i) }
{
    Covered {
        low: at_least(i),
        high: above(i),
    }
}

/// What a select of a range covers.
#[tactic(auto, unfolding(crate::specs::Reaches::reach))]
pub(crate) fn reach(part: Part, bounds: Bounds, i: Whole, j: Whole) -> Covered
    ensures { reach_of result ≡ short (reach part bounds i j) }
{
    match part {
        Part::Fixed => {
            if bounds.is_down() {
                return Covered {
                    low: at_least(j),
                    high: above(i),
                };
            }
            Covered {
                low: at_least(i),
                high: above(j),
            }
        }
        Part::Up => Covered {
            low: at_least(i),
            high: further(i, j.count()),
        },
        Part::Down => Covered {
            low: below(i, j.count()),
            high: above(i),
        },
    }
}

/// From one position up to another.
#[tactic(auto, unfolding(crate::specs::Reaches::between))]
fn between(from: u128, to: u128, numbers: &[u32]) -> &[u32]
    ensures value { result.now ≡ between from to numbers.now }
    ensures size { length numbers.now < 2 ^ 64 }
{
    let to = to.min(numbers.len() as u128) as usize;
    let from = from.min(to as u128) as usize;
    let (front, _) = numbers.split_at(to);
    let (_, part) = front.split_at(from);
    part
}

/// The bits that have the indices, where these grow with the position.
fn reached_upwards(lsb: u32, x: Covered, numbers: &[u32]) -> &[u32]
    ensures { (y : Reach) → reach_of x ≡ short y → result.now ≡ between (y.low - lsb) (y.high - lsb) numbers.now }
{
    let lsb = lsb as u128;
    between(
        x.low.saturating_sub(lsb),
        x.high.saturating_sub(lsb),
        numbers,
    )
}

/// The same, where they fall.
fn reached_downwards(lsb: u32, x: Covered, numbers: &[u32]) -> &[u32]
    ensures { (y : Reach) → reach_of x ≡ short y → result.now ≡ between ((lsb + 1) - y.high) ((lsb + 1) - y.low) numbers.now }
{
    let top = lsb as u128 + 1;
    between(
        top.saturating_sub(x.high),
        top.saturating_sub(x.low),
        numbers,
    )
}

/// The bits that have the indices, from the numbers of all bits of a signal.
#[tactic(auto, unfolding(crate::specs::Reaches::reached))]
pub(crate) fn reached(bounds: Bounds, x: Covered, numbers: &[u32]) -> &[u32]
    ensures { (y : Reach) → reach_of x ≡ short y → result.now ≡ reached bounds y numbers.now }
{
    if bounds.is_down() {
        return reached_upwards(bounds.lsb, x, numbers);
    }
    reached_downwards(bounds.lsb, x, numbers)
}
