//! All lines of a file.

ghost use Rattle.std.specs.Prelude.{◌≡◌, ◌≤◌, ◌∷◌, [], ◌++◌, List, length, map, MatchResult};
ghost use Rattle.cons_file.specs.File.{Stated, stated, form_said};
ghost use Rattle.cons_bind.specs.Names.{net_of};
ghost use Rattle.cons_bind.specs.Claims.{IsReadSource, tracks_in, all_of};
ghost use Rattle.cons_bind.specs.Binding.{forms_of, Stands, LineFails, Binds};
ghost use Rattle.cons_bind.specs.Marks.{Marks};
ghost use Rattle.cons_bind.specs.Causes.{OnCause};
ghost use Rattle.cons_bind.specs.DeclaredIn.{AreDeclared};
ghost use Rattle.cons_bind.specs.Taken.{IsTaken, AreSized};
ghost use Rattle.cons_bind.specs.declared.bound.BoundLine.{BoundLine as DeclaredLine};

use crate::bound::{Bound, BoundForm, BoundLine};
use crate::cause::Cause;
use crate::claims::{Taken, is_past_limit, is_twice, no_claims, reads_clock};
use crate::declarations::{declared_clocks, declared_resets};
use crate::fault::BindFault;
use crate::meaning::meaning;
use crate::named::Declared;
use crate::reads::read_sources;
use cons_file::{Line, LineForm};
use net_view::FlopNet;
use rdc_outside::Seq;
use std::alloc::Global;

/// What a line is behind those before it, or its fault.
fn bind_line<V: FlopNet>(
    alloc: Global,
    view: &V,
    declared: &Declared,
    reads: &[bool],
    taken: &mut Taken,
    tracked: &mut usize,
    form: LineForm,
) -> Result<BoundForm, Cause>
    requires resets { length declared.now.resets.items ≡ V.source_count view.now }
    requires clocks { length declared.now.clocks.items ≡ V.source_count view.now }
    requires reads { length reads.now ≡ V.source_count view.now }
    requires sized { AreSized (V.source_count view.now) taken.old }
    requires few { tracked.old ≤ 16 }
    ensures line { (lines : List Stated) (before : List DeclaredLine) →
        let net = net_of (V.gates view.now) (V.names view.now) (V.kinds view.now) (V.named_bits view.now) in
        AreDeclared net lines declared.now → Marks (IsReadSource net) reads.now → IsTaken (forms_of before) taken.old →
        tracked.old ≡ length (all_of tracks_in (forms_of before)) →
        MatchResult result
        (λ it. Stands net lines before (form_said form.entry) it × IsTaken (forms_of before ++ it ∷ []) taken.new
        × (tracked.new ≡ length (all_of tracks_in (forms_of before ++ it ∷ []))))
        (λ cause. OnCause (LineFails net lines before (form_said form.entry)) cause) }
    ensures sized { AreSized (V.source_count view.now) taken.new }
    ensures few { tracked.new ≤ 16 }
{
    let it = meaning(alloc, view, declared, form)?;
    if reads_clock(reads, &it) {
        return Err(Cause::ClockRead);
    }
    if is_twice(view.sources(), taken, &it) {
        return Err(Cause::Twice);
    }
    if is_past_limit(tracked, &it) {
        return Err(Cause::TrackLimit);
    }
    Ok(it)
}

/// The lines in a net, each name being its bit, or the first line that has a fault.
///
/// It goes over the nodes and the lines a fixed number of times, and looks each name up; a `track` line of a vector, of
/// which there are at most 16, goes over all names.
pub fn bind<V: FlopNet>(alloc: Global, view: &V, lines: &[Line]) -> Result<Bound, BindFault>
    ensures { Binds (net_of (V.gates view.now) (V.names view.now) (V.kinds view.now) (V.named_bits view.now)) (map stated lines.now) result }
{
    let resets = declared_resets(alloc, view, lines)?;
    let clocks = declared_clocks(alloc, view, lines)?;
    let declared = Declared { resets, clocks };
    let reads = read_sources(alloc, view)?;
    let mut taken = no_claims(alloc, view.sources())?;
    let mut tracked = 0;
    let mut bound = Vec::with_capacity(alloc, lines.len())?;
    'lines: for line in lines {
        match bind_line(
            alloc,
            view,
            &declared,
            &reads,
            &mut taken,
            &mut tracked,
            line.form,
        ) {
            Ok(form) => {
                bound.push(BoundLine {
                    number: line.number,
                    form,
                })?;
            }
            Err(cause) => return Err(cause.at(line.number)),
        }
    }
    Ok(Bound {
        lines: Seq::from_vec(bound),
    })
}
