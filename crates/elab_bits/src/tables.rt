//! The two first places of each bit.
ghost use Rattle.std.specs.Prelude.{◌≡◌, set, get_or, IfOk};
ghost use Rattle.elab_bits.specs.Orders.{is_before};
ghost use Rattle.elab_bits.specs.Tables.{HoldsFirsts, no_places, sooner, with_place};

use crate::touch::Touch;
use rdc_outside::Place;
use std::alloc::{AllocError, Global};

/// The two places that come first among those of a bit.
#[derive(Clone, Copy)]
pub(crate) struct Firsts {
    pub(crate) least: Option<Place>,
    pub(crate) next: Option<Place>,
}

/// Whether a place comes before another.
#[tactic(auto, unfolding(crate::specs::Orders::is_before))]
fn is_before(one: Place, other: Place) -> bool
    ensures { result ≡ is_before one other }
{
    if one.file == other.file {
        if one.line == other.line {
            one.col < other.col
        } else {
            one.line < other.line
        }
    } else {
        one.file < other.file
    }
}

/// The place that comes first.
#[tactic(auto, unfolding(crate::specs::Tables::sooner))]
fn sooner(next: Option<Place>, place: Place) -> Place
    ensures { result ≡ sooner next place }
{
    match next {
        None => place,
        Some(next) => { if is_before(place, next) { place } else { next } }
    }
}

/// The two first places with one more.
#[tactic(auto, unfolding(crate::specs::Tables::with_place, crate::specs::Tables::with_least))]
fn with_place(firsts: Firsts, place: Place) -> Firsts
    ensures { result ≡ with_place firsts place }
{
    match firsts.least {
        None => Firsts {
            least: Some(place),
            next: firsts.next,
        },
        Some(least) => {
            if is_before(place, least) {
                Firsts {
                    least: Some(place),
                    next: Some(least),
                }
            } else {
                Firsts {
                    least: Some(least),
                    next: Some(sooner(firsts.next, place)),
                }
            }
        }
    }
}

/// Enters a touch, if its bit is in the table.
fn mark(table: &mut Vec<Firsts>, touch: Touch)
    ensures { table.new.items ≡ set table.old.items touch.bit (with_place (get_or table.old.items touch.bit no_places) touch.place) }
{
    let number = touch.bit as usize;
    if number < table.len() {
        table[number] = with_place(table[number], touch.place);
    }
}

/// The two first places of each of so many bits.
pub(crate) fn table_of(
    alloc: Global,
    count: u32,
    touches: &[Touch],
) -> Result<Vec<Firsts>, AllocError>
    ensures { IfOk result (λ table. HoldsFirsts table.items count touches.now) }
{
    let none = Firsts {
        least: None,
        next: None,
    };
    let mut table = vec![in alloc; none; count as usize]?;
    for touch in touches {
        mark(&mut table, *touch);
    }
    Ok(table)
}
