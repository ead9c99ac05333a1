//! What lines claim of ports and flops: roles, tracks and waivers.

ghost use Rattle.std.specs.Prelude.{◌≡◌, ◌<◌, ◌≤◌, ◌+◌, ◌++◌, ◌∷◌, [], ℕ, List, length, All, Contains, MatchBool, IfOk};
ghost use Rattle.cons_bind.specs.Names.{Net};
ghost use Rattle.cons_bind.specs.Marks.{Marks};
ghost use Rattle.cons_bind.specs.Claims.{Repeats, IsTwice, IsPastLimit, IsReadSource, ReadsClock, tracks_in, all_of};
ghost use Rattle.cons_bind.specs.Taken.{IsTaken, AreInside, AreSized};
ghost use Rattle.cons_bind.specs.declared.bound.BoundForm.{BoundForm as DeclaredForm};

use crate::bound::BoundForm;
use std::alloc::{AllocError, Global};

/// How many flops may be tracked.
const MOST_TRACKED: usize = 16;

/// What the lines so far have claimed: marks by source.
#[derive(Debug, Drop)]
pub(crate) struct Taken {
    pub(crate) roles: Vec<bool>,
    pub(crate) tracks: Vec<bool>,
    pub(crate) waives: Vec<bool>,
}

/// Marks the sources, up to the first that is marked already; whether there is one.
fn claim(marks: &mut [bool], sources: &[u32]) -> bool
    requires { All (λ s. s < length marks.old) sources.now }
    ensures { (before : List ℕ) → Marks (Contains before) marks.old →
        MatchBool result (Repeats before sources.now) ((Repeats before sources.now → ⊥) × Marks (Contains (before ++ sources.now)) marks.new) }
{
    'sources: for source in sources {
        if marks[*source as usize] {
            return true;
        }
        marks[*source as usize] = true;
    }
    false
}

/// No claims yet, of so many sources.
pub(crate) fn no_claims(alloc: Global, sources: u32) -> Result<Taken, AllocError>
    ensures taken { IfOk result (λ taken. IsTaken [] taken) }
    ensures sized { IfOk result (λ taken. AreSized sources taken) }
{
    let roles = vec![in alloc; false; sources as usize]?;
    let tracks = vec![in alloc; false; sources as usize]?;
    let waives = vec![in alloc; false; sources as usize]?;
    Ok(Taken {
        roles,
        tracks,
        waives,
    })
}

/// Whether a line claims again what an earlier one has; else its claims are taken.
pub(crate) fn is_twice(sources: u32, taken: &mut Taken, form: &BoundForm) -> bool
    requires inside { AreInside sources form.now }
    requires sized { AreSized sources taken.old }
    ensures value { (before : List DeclaredForm) → IsTaken before taken.old →
        MatchBool result (IsTwice before form.now) ((IsTwice before form.now → ⊥) × IsTaken (before ++ form.now ∷ []) taken.new) }
    ensures sized { AreSized sources taken.new }
{
    match form {
        BoundForm::Clock(port) => claim(&mut taken.roles, &[*port]),
        BoundForm::Reset(source, _) => claim(&mut taken.roles, &[*source]),
        BoundForm::Tie(port, _) => claim(&mut taken.roles, &[*port]),
        BoundForm::Steady(port) => claim(&mut taken.roles, &[*port]),
        BoundForm::Track(flops) => claim(&mut taken.tracks, flops.as_slice()),
        BoundForm::Waive(flop, _) => claim(&mut taken.waives, &[*flop]),
        BoundForm::Order(_, _) => false,
        BoundForm::Isolate(_, _, _) => false,
        BoundForm::Quiet(_, _) => false,
    }
}

/// Whether more flops are tracked with a line than may be; else they are counted.
pub(crate) fn is_past_limit(tracked: &mut usize, form: &BoundForm) -> bool
    requires { tracked.old ≤ 16 }
    ensures value { (before : List DeclaredForm) → tracked.old ≡ length (all_of tracks_in before) →
        MatchBool result (IsPastLimit before form.now) ((IsPastLimit before form.now → ⊥) × (tracked.new ≡ length (all_of tracks_in (before ++ form.now ∷ [])))) }
    ensures few { tracked.new ≤ 16 }
{
    let BoundForm::Track(flops) = form else {
        return false;
    };
    if flops.len() > MOST_TRACKED - *tracked {
        return true;
    }
    *tracked += flops.len();
    false
}

/// Whether a line declares a clock that is read, where the sources that are read are marked.
pub(crate) fn reads_clock(reads: &[bool], form: &BoundForm) -> bool
    requires { AreInside (length reads.now) form.now }
    ensures { (net : Net) → Marks (IsReadSource net) reads.now → MatchBool result (ReadsClock net form.now) (ReadsClock net form.now → ⊥) }
{
    match form {
        BoundForm::Clock(port) => reads[*port as usize],
        _ => false,
    }
}
