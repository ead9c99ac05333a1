//! The flops of a `track` line.

ghost use Rattle.std.specs.Prelude.{◌≡◌, ◌<◌, ℕ, ◌∷◌, [], length, All, Contains, MatchResult, IfOk};
ghost use Rattle.cons_bind.specs.Names.{net_of};
ghost use Rattle.cons_bind.specs.Meaning.{AreFlops, IsNoFlop, Tracks, TrackFails};
ghost use Rattle.cons_bind.specs.Causes.{OnCause};
ghost use Rattle.cons_bind.specs.declared.cause.Cause.TheVariants.{NotAFlop};

use crate::cause::Cause;
use crate::names::bits_of;
use crate::sources::flop_at;
use net_view::FlopNet;
use std::alloc::Global;

/// The flops that bits are.
fn flops_of<V: FlopNet>(alloc: Global, view: &V, bits: &[u32]) -> Result<Vec<u32>, Cause>
    requires { All (λ b. b < length (V.named_bits view.now)) bits.now }
    ensures flops { let net = net_of (V.gates view.now) (V.names view.now) (V.kinds view.now) (V.named_bits view.now) in
        MatchResult result (λ flops. AreFlops net bits.now flops.items)
        (λ cause. OnCause (λ c. (c ≡ NotAFlop) × ((b : ℕ) × Contains bits.now b × IsNoFlop net b)) cause) }
    ensures within { IfOk result (λ flops. All (λ s. s < V.source_count view.now) flops.items) }
{
    let mut flops = Vec::new(alloc);
    'bits: for b in bits {
        let Some(flop) = flop_at(view, *b) else {
            return Err(Cause::NotAFlop);
        };
        flops.push(flop)?;
    }
    Ok(flops)
}

/// The flop of one bit.
fn flop_of<V: FlopNet>(alloc: Global, view: &V, b: u32) -> Result<Vec<u32>, Cause>
    requires { b < length (V.named_bits view.now) }
    ensures flops { let net = net_of (V.gates view.now) (V.names view.now) (V.kinds view.now) (V.named_bits view.now) in
        MatchResult result (λ flops. AreFlops net (b ∷ []) flops.items) (λ cause. OnCause (λ c. (c ≡ NotAFlop) × IsNoFlop net b) cause) }
    ensures within { IfOk result (λ flops. All (λ s. s < V.source_count view.now) flops.items) }
{
    let Some(flop) = flop_at(view, b) else {
        return Err(Cause::NotAFlop);
    };
    let mut flops = Vec::with_capacity(alloc, 1)?;
    flops.push(flop)?;
    Ok(flops)
}

/// The flops that a name is: that of the bit, or those of all bits of the vector, in name order.
pub(crate) fn tracked<V: FlopNet>(alloc: Global, view: &V, name: &str) -> Result<Vec<u32>, Cause>
    ensures flops { let net = net_of (V.gates view.now) (V.names view.now) (V.kinds view.now) (V.named_bits view.now) in
        MatchResult result (λ flops. Tracks net name.now flops.items) (λ cause. OnCause (TrackFails net name.now) cause) }
    ensures within { IfOk result (λ flops. All (λ s. s < V.source_count view.now) flops.items) }
{
    if let Some(b) = view.find(name) {
        return flop_of(alloc, view, b);
    }
    let bits = bits_of(alloc, view, name)?;
    let bits = bits.as_slice();
    if bits.is_empty() {
        return Err(Cause::NoName);
    }
    flops_of(alloc, view, bits)
}
