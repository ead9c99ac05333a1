//! Declared ranges.
ghost use Rattle.std.specs.Prelude.{◌≡◌};
ghost use Rattle.std.specs.Option.{option_map};
ghost use Rattle.elab_names.specs.Answers.{Answers};
ghost use Rattle.elab_names.specs.Meanings.{frames_of};
ghost use Rattle.elab_scopes.specs.Ranges.{bound, bounds, narrow, vector, within_bounds};

use crate::place::place_of;
use design_form::Bounds;
use elab_names::{ElabFault, Scope, constant};
use rdc_outside::Place;
use sqlite_items::Boxed;
use std::alloc::Global;
use vlog_const::Whole;
use vlog_tree::{Expr, Range};

/// The greatest bound of a range.
const MOST_BOUND: u128 = 65_535;

/// The most bits of a vector.
const MOST_BITS: usize = 1_024;

/// A bound, where it is one.
#[tactic(auto, unfolding(crate::specs::Ranges::within_bounds))]
fn within_bounds(place: Place, n: Whole) -> Result<u32, ElabFault>
    ensures { Answers (λ b. b) result (within_bounds place n) }
{
    if n.negative || MOST_BOUND < n.magnitude {
        return Err(ElabFault::BadRange(place));
    }
    Ok(n.magnitude as u32)
}

/// A bound.
#[tactic(auto, unfolding(crate::specs::Ranges::bound, elab_names::specs::Answers::and_then))]
fn bound(alloc: Global, e: &Expr, scope: &Scope) -> Result<u32, ElabFault>
    ensures { Answers (λ b. b) result (bound (frames_of scope.now) e.now) }
{
    let value = constant(alloc, e, scope)?;
    within_bounds(place_of(e), Whole::of(value))
}

/// Both bounds of a range.
///
/// # Errors
/// `BadRange` at a bound outside 0 to 65,535, and what `constant` answers of it.
#[tactic(auto, unfolding(crate::specs::Ranges::bounds, elab_names::specs::Answers::and_then))]
pub fn bounds(alloc: Global, range: &Range, scope: &Scope) -> Result<Bounds, ElabFault>
    ensures { Answers (λ b. b) result (bounds (frames_of scope.now) range.now) }
{
    let msb = bound(alloc, &range.msb, scope)?;
    let lsb = bound(alloc, &range.lsb, scope)?;
    Ok(Bounds { msb, lsb })
}

/// A range that is no wider than the widest vector.
#[tactic(auto, unfolding(crate::specs::Ranges::narrow))]
fn narrow(place: Place, bounds: Bounds) -> Result<Bounds, ElabFault>
    ensures { Answers (λ b. b) result (narrow 1024 place bounds) }
{
    if MOST_BITS < bounds.width() {
        return Err(ElabFault::WidthLimit(place));
    }
    Ok(bounds)
}

/// The range of a vector, if it has one.
///
/// # Errors
/// As `bounds`, and `WidthLimit` at a range of more than 1,024 bits.
#[tactic(auto, unfolding(crate::specs::Ranges::vector, elab_names::specs::Answers::and_then))]
pub fn vector(
    alloc: Global,
    range: &Option<Boxed<Range>>,
    scope: &Scope,
) -> Result<Option<Bounds>, ElabFault>
    ensures { Answers (λ b. b) result (vector (frames_of scope.now) range.now) }
{
    match range {
        Some(range) => {
            let range = range.get();
            let bounds = bounds(alloc, range, scope)?;
            Ok(Some(narrow(place_of(&range.msb), bounds)?))
        }
        None => Ok(None),
    }
}
