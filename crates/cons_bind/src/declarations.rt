//! The resets and clocks that a file declares, wherever the lines stand.

ghost use Rattle.std.specs.Prelude.{◌≡◌, ◌<◌, ℕ, length, map, IfOk, IfSome, MatchOption, Some, None};
ghost use Rattle.net_view.specs.FlopNet.{FindsBit};
ghost use Rattle.cons_file.specs.File.{stated, form_said};
ghost use Rattle.cons_bind.specs.Names.{net_of, IsPortBit, IsPortOrFlopBit};
ghost use Rattle.cons_bind.specs.Declarations.{DeclaresReset, DeclaresClock, IsDeclaredReset, IsDeclaredClock};
ghost use Rattle.cons_bind.specs.Marks.{Marks};

use crate::sources::{port_at, port_or_flop_at};
use cons_file::{Line, LineForm};
use net_view::FlopNet;
use std::alloc::{AllocError, Global};

/// The number of an input port.
fn port_named<V: FlopNet>(view: &V, name: &str) -> Option<u32>
    ensures source { let net = net_of (V.gates view.now) (V.names view.now) (V.kinds view.now) (V.named_bits view.now) in
        MatchOption result ((s : ℕ) → ((b : ℕ) × FindsBit net.bits name.now (Some b) × IsPortBit net b s) → ⊥) (λ s. (b : ℕ) × FindsBit net.bits name.now (Some b) × IsPortBit net b s) }
    ensures within { IfSome result (λ s. s < V.source_count view.now) }
{
    port_at(view, view.find(name)?)
}

/// The number of an input port or a flop.
fn port_or_flop_named<V: FlopNet>(view: &V, name: &str) -> Option<u32>
    ensures source { let net = net_of (V.gates view.now) (V.names view.now) (V.kinds view.now) (V.named_bits view.now) in
        MatchOption result ((s : ℕ) → ((b : ℕ) × FindsBit net.bits name.now (Some b) × IsPortOrFlopBit net b s) → ⊥) (λ s. (b : ℕ) × FindsBit net.bits name.now (Some b) × IsPortOrFlopBit net b s) }
    ensures within { IfSome result (λ s. s < V.source_count view.now) }
{
    port_or_flop_at(view, view.find(name)?)
}

/// The source that a line declares a reset.
fn reset_of<V: FlopNet>(view: &V, form: LineForm) -> Option<u32>
    ensures source { let net = net_of (V.gates view.now) (V.names view.now) (V.kinds view.now) (V.named_bits view.now) in
        MatchOption result ((s : ℕ) → DeclaresReset net s (form_said form.entry) → ⊥) (λ s. DeclaresReset net s (form_said form.entry)) }
    ensures within { IfSome result (λ s. s < V.source_count view.now) }
{
    match form {
        LineForm::Reset(name, _) => port_or_flop_named(view, name),
        _ => None,
    }
}

/// The source that a line declares a clock.
fn clock_of<V: FlopNet>(view: &V, form: LineForm) -> Option<u32>
    ensures source { let net = net_of (V.gates view.now) (V.names view.now) (V.kinds view.now) (V.named_bits view.now) in
        MatchOption result ((s : ℕ) → DeclaresClock net s (form_said form.entry) → ⊥) (λ s. DeclaresClock net s (form_said form.entry)) }
    ensures within { IfSome result (λ s. s < V.source_count view.now) }
{
    match form {
        LineForm::Clock(port) => port_named(view, port),
        _ => None,
    }
}

/// A mark for each declared reset.
pub(crate) fn declared_resets<V: FlopNet>(
    alloc: Global,
    view: &V,
    lines: &[Line],
) -> Result<Vec<bool>, AllocError>
    ensures marks { IfOk result (λ marks. let net = net_of (V.gates view.now) (V.names view.now) (V.kinds view.now) (V.named_bits view.now) in
        Marks (IsDeclaredReset net (map stated lines.now)) marks.items) }
    ensures len { IfOk result (λ marks. length marks.items ≡ V.source_count view.now) }
{
    let mut marks = vec![in alloc; false; view.sources() as usize]?;
    'lines: for line in lines {
        if let Some(source) = reset_of(view, line.form) {
            marks[source as usize] = true;
        }
    }
    Ok(marks)
}

/// A mark for each declared clock.
pub(crate) fn declared_clocks<V: FlopNet>(
    alloc: Global,
    view: &V,
    lines: &[Line],
) -> Result<Vec<bool>, AllocError>
    ensures marks { IfOk result (λ marks. let net = net_of (V.gates view.now) (V.names view.now) (V.kinds view.now) (V.named_bits view.now) in
        Marks (IsDeclaredClock net (map stated lines.now)) marks.items) }
    ensures len { IfOk result (λ marks. length marks.items ≡ V.source_count view.now) }
{
    let mut marks = vec![in alloc; false; view.sources() as usize]?;
    'lines: for line in lines {
        if let Some(source) = clock_of(view, line.form) {
            marks[source as usize] = true;
        }
    }
    Ok(marks)
}
