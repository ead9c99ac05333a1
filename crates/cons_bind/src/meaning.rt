//! A line with its names put in.

ghost use Rattle.std.specs.Prelude.{◌≡◌, ◌<◌, ℕ, List, length, MatchResult, IfOk};
ghost use Rattle.cons_file.specs.File.{Stated, form_said};
ghost use Rattle.cons_bind.specs.Names.{net_of};
ghost use Rattle.cons_bind.specs.Meaning.{IsBound, HasCause};
ghost use Rattle.cons_bind.specs.Causes.{OnCause};
ghost use Rattle.cons_bind.specs.DeclaredIn.{AreDeclared};
ghost use Rattle.cons_bind.specs.Taken.{AreInside};

use crate::bound::BoundForm;
use crate::cause::Cause;
use crate::named::{Declared, bit_named, named};
use crate::tracks::tracked;
use crate::wanted::Wanted;
use cons_file::LineForm;
use net_view::FlopNet;
use rdc_outside::Seq;
use std::alloc::Global;

/// The form of a line with the numbers of its names, or the first name that fails.
pub(crate) fn meaning<V: FlopNet>(
    alloc: Global,
    view: &V,
    declared: &Declared,
    form: LineForm,
) -> Result<BoundForm, Cause>
    requires resets { length declared.now.resets.items ≡ V.source_count view.now }
    requires clocks { length declared.now.clocks.items ≡ V.source_count view.now }
    ensures means { (lines : List Stated) → let net = net_of (V.gates view.now) (V.names view.now) (V.kinds view.now) (V.named_bits view.now) in
        AreDeclared net lines declared.now → MatchResult result (λ it. IsBound net lines (form_said form.entry) it) (λ cause. OnCause (HasCause net lines (form_said form.entry)) cause) }
    ensures inside { IfOk result (λ it. AreInside (V.source_count view.now) it) }
{
    match form {
        LineForm::Clock(port) => {
            let port = named(view, declared, Wanted::Input, port)?;
            Ok(BoundForm::Clock(port))
        }
        LineForm::Reset(name, high) => {
            let source = named(view, declared, Wanted::ResetSource, name)?;
            Ok(BoundForm::Reset(source, high))
        }
        LineForm::Tie(port, one) => {
            let port = named(view, declared, Wanted::Input, port)?;
            Ok(BoundForm::Tie(port, one))
        }
        LineForm::Steady(port) => {
            let port = named(view, declared, Wanted::Input, port)?;
            Ok(BoundForm::Steady(port))
        }
        LineForm::Track(name) => {
            let flops = tracked(alloc, view, name)?;
            Ok(BoundForm::Track(Seq::from_vec(flops)))
        }
        LineForm::Order(first, second) => {
            let first = named(view, declared, Wanted::DeclaredReset, first)?;
            let second = named(view, declared, Wanted::DeclaredReset, second)?;
            Ok(BoundForm::Order(first, second))
        }
        LineForm::Isolate(reset, bit, one) => {
            let reset = named(view, declared, Wanted::DeclaredReset, reset)?;
            let node = bit_named(view, bit)?;
            Ok(BoundForm::Isolate(reset, node, one))
        }
        LineForm::Quiet(reset, clock) => {
            let reset = named(view, declared, Wanted::DeclaredReset, reset)?;
            let clock = named(view, declared, Wanted::DeclaredClock, clock)?;
            Ok(BoundForm::Quiet(reset, clock))
        }
        LineForm::Waive(flop, reason) => {
            let flop = named(view, declared, Wanted::Flop, flop)?;
            let reason = Vec::from_slice(alloc, reason.as_bytes())?;
            Ok(BoundForm::Waive(flop, Seq::from_vec(reason)))
        }
    }
}
