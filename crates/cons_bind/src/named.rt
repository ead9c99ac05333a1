//! What a name is, where a line wants one thing of it.

ghost use Rattle.std.specs.Prelude.{◌≡◌, ◌<◌, ℕ, List, length, Option, None, MatchOption, MatchResult, IfOk, IfSome};
ghost use Rattle.net_view.specs.FlopNet.{FindsBit};
ghost use Rattle.cons_file.specs.File.{Stated};
ghost use Rattle.cons_bind.specs.Names.{net_of};
ghost use Rattle.cons_bind.specs.Wants.{Fits, Means, MeansBit, Fails, FailsBit};
ghost use Rattle.cons_bind.specs.DeclaredIn.{AreDeclared};

use crate::cause::Cause;
use crate::names::is_vector;
use crate::sources::{flop_at, marked_at, node_of, port_at, port_or_flop_at};
use crate::wanted::{Wanted, misfit_of};
use net_view::FlopNet;

/// A mark for each declared reset and for each declared clock, by source.
#[derive(Debug, Drop)]
pub(crate) struct Declared {
    pub(crate) resets: Vec<bool>,
    pub(crate) clocks: Vec<bool>,
}

/// The source that a bit is, where it is what is wanted.
fn fit<V: FlopNet>(view: &V, declared: &Declared, wanted: Wanted, b: u32) -> Option<u32>
    requires bit { b < length (V.named_bits view.now) }
    requires resets { length declared.now.resets.items ≡ V.source_count view.now }
    requires clocks { length declared.now.clocks.items ≡ V.source_count view.now }
    ensures fits { (lines : List Stated) → let net = net_of (V.gates view.now) (V.names view.now) (V.kinds view.now) (V.named_bits view.now) in
        AreDeclared net lines declared.now → MatchOption result ((s : ℕ) → Fits net lines wanted b s → ⊥) (λ s. Fits net lines wanted b s) }
    ensures within { IfSome result (λ s. s < V.source_count view.now) }
{
    match wanted {
        Wanted::Input => port_at(view, b),
        Wanted::Flop => flop_at(view, b),
        Wanted::ResetSource => port_or_flop_at(view, b),
        Wanted::DeclaredReset => marked_at(view, &declared.resets, b),
        Wanted::DeclaredClock => marked_at(view, &declared.clocks, b),
    }
}

/// Why no bit has a name.
fn absence<V: FlopNet>(view: &V, name: &str) -> Cause
    ensures { let net = net_of (V.gates view.now) (V.names view.now) (V.kinds view.now) (V.named_bits view.now) in
        FindsBit net.bits name.now None → FailsBit net name.now result }
{
    if is_vector(view, name) {
        Cause::NotOneBit
    } else {
        Cause::NoName
    }
}

/// The source that a name is, or why it isn't what is wanted.
pub(crate) fn named<V: FlopNet>(
    view: &V,
    declared: &Declared,
    wanted: Wanted,
    name: &str,
) -> Result<u32, Cause>
    requires resets { length declared.now.resets.items ≡ V.source_count view.now }
    requires clocks { length declared.now.clocks.items ≡ V.source_count view.now }
    ensures means { (lines : List Stated) → let net = net_of (V.gates view.now) (V.names view.now) (V.kinds view.now) (V.named_bits view.now) in
        AreDeclared net lines declared.now → MatchResult result (λ s. Means net lines wanted name.now s) (λ cause. Fails net lines wanted name.now cause) }
    ensures within { IfOk result (λ s. s < V.source_count view.now) }
{
    let Some(b) = view.find(name) else {
        return Err(absence(view, name));
    };
    match fit(view, declared, wanted, b) {
        Some(source) => Ok(source),
        None => Err(misfit_of(wanted)),
    }
}

/// The node that a name is, or why it isn't one bit's.
pub(crate) fn bit_named<V: FlopNet>(view: &V, name: &str) -> Result<u32, Cause>
    ensures { let net = net_of (V.gates view.now) (V.names view.now) (V.kinds view.now) (V.named_bits view.now) in
        MatchResult result (λ node. MeansBit net name.now node) (λ cause. FailsBit net name.now cause) }
{
    match view.find(name) {
        Some(b) => Ok(node_of(view, b)),
        None => Err(absence(view, name)),
    }
}
