//! Bits as sources and nodes.

ghost use Rattle.std.specs.Prelude.{◌≡◌, ℕ, ◌<◌, false, length, slice_index_or, MatchOption, IfSome, IsTrue};
ghost use Rattle.net_view.specs.FlopNet.{Bit, IsBitAt};
ghost use Rattle.cons_bind.specs.Names.{net_of, IsSourceBit, IsPortBit, IsFlopBit, IsPortOrFlopBit};
ghost use Rattle.cons_bind.specs.Sorts.{IsOfSort};

use net_view::{FlopNet, Gate, SrcKind};

/// What a source is.
#[derive(Clone, Copy, Debug, PartialEq, Eq)]
pub(crate) enum Sort {
    Input,
    Register,
    /// An output of a black box.
    Foreign,
}

/// What a source is.
fn sort_of<V: FlopNet>(view: &V, source: V::Src) -> Sort
    requires { V.source_number source < V.source_count view.now }
    ensures { IsOfSort (V.kinds view.now) result (V.source_number source) }
{
    match view.kind(source) {
        SrcKind::Port => Sort::Input,
        SrcKind::BoxOut => Sort::Foreign,
        SrcKind::Flop(_) => Sort::Register,
    }
}

/// The number of the node of a bit.
pub(crate) fn node_of<V: FlopNet>(view: &V, b: u32) -> u32
    requires { b < length (V.named_bits view.now) }
    ensures { (bit : Bit) → IsBitAt (V.named_bits view.now) b bit → result ≡ bit.node }
{
    let _bits = view.bits();
    view.index(view.bit_node(b))
}

/// The source that a bit is, and what it is; None where the bit is no source.
pub(crate) fn source_of<V: FlopNet>(view: &V, b: u32) -> Option<(u32, Sort)>
    requires { b < length (V.named_bits view.now) }
    ensures source { let net = net_of (V.gates view.now) (V.names view.now) (V.kinds view.now) (V.named_bits view.now) in
        MatchOption result ((s : ℕ) → IsSourceBit net b s → ⊥) (λ found. IsSourceBit net b found.0 × IsOfSort (V.kinds view.now) found.1 found.0) }
    ensures within { IfSome result (λ found. found.0 < V.source_count view.now) }
{
    let _bits = view.bits();
    let _nodes = view.nodes();
    let Gate::Source(source) = view.gate(view.bit_node(b)) else {
        return None;
    };
    if view.name(source) == view.bit_name(b) {
        Some((view.src_index(source), sort_of(view, source)))
    } else {
        None
    }
}

/// The input port that a bit is.
pub(crate) fn port_at<V: FlopNet>(view: &V, b: u32) -> Option<u32>
    requires { b < length (V.named_bits view.now) }
    ensures source { let net = net_of (V.gates view.now) (V.names view.now) (V.kinds view.now) (V.named_bits view.now) in
        MatchOption result ((s : ℕ) → IsPortBit net b s → ⊥) (λ s. IsPortBit net b s) }
    ensures within { IfSome result (λ s. s < V.source_count view.now) }
{
    match source_of(view, b) {
        Some((source, Sort::Input)) => Some(source),
        Some((_, Sort::Register | Sort::Foreign)) => None,
        None => None,
    }
}

/// The flop that a bit is.
pub(crate) fn flop_at<V: FlopNet>(view: &V, b: u32) -> Option<u32>
    requires { b < length (V.named_bits view.now) }
    ensures source { let net = net_of (V.gates view.now) (V.names view.now) (V.kinds view.now) (V.named_bits view.now) in
        MatchOption result ((s : ℕ) → IsFlopBit net b s → ⊥) (λ s. IsFlopBit net b s) }
    ensures within { IfSome result (λ s. s < V.source_count view.now) }
{
    match source_of(view, b) {
        Some((source, Sort::Register)) => Some(source),
        Some((_, Sort::Input | Sort::Foreign)) => None,
        None => None,
    }
}

/// The input port or the flop that a bit is.
pub(crate) fn port_or_flop_at<V: FlopNet>(view: &V, b: u32) -> Option<u32>
    requires { b < length (V.named_bits view.now) }
    ensures source { let net = net_of (V.gates view.now) (V.names view.now) (V.kinds view.now) (V.named_bits view.now) in
        MatchOption result ((s : ℕ) → IsPortOrFlopBit net b s → ⊥) (λ s. IsPortOrFlopBit net b s) }
    ensures within { IfSome result (λ s. s < V.source_count view.now) }
{
    match source_of(view, b) {
        Some((source, Sort::Input | Sort::Register)) => Some(source),
        Some((_, Sort::Foreign)) => None,
        None => None,
    }
}

/// The source that a bit is, where it is marked.
pub(crate) fn marked_at<V: FlopNet>(view: &V, marks: &[bool], b: u32) -> Option<u32>
    requires bit { b < length (V.named_bits view.now) }
    requires marks { length marks.now ≡ V.source_count view.now }
    ensures source { let net = net_of (V.gates view.now) (V.names view.now) (V.kinds view.now) (V.named_bits view.now) in
        MatchOption result ((s : ℕ) → IsSourceBit net b s → IsTrue (slice_index_or marks.now s false) → ⊥) (λ s. IsSourceBit net b s × IsTrue (slice_index_or marks.now s false)) }
    ensures within { IfSome result (λ s. s < V.source_count view.now) }
{
    let Some((source, _)) = source_of(view, b) else {
        return None;
    };
    if marks[source as usize] {
        Some(source)
    } else {
        None
    }
}
