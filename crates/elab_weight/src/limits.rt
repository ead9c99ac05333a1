//! The limit of a weight, and numbers as far as it.
ghost use Rattle.std.specs.Prelude.{◌≡◌, ◌+◌, ◌*◌, nat_le};
ghost use Rattle.elab_names.specs.Answers.{Answers};
ghost use Rattle.elab_names.specs.declared.fault.ElabFault.TheVariants.{Memory};
ghost use Rattle.elab_weight.specs.Limits.{capped, most_weight, weighed};

use design_form::EvalFault;
use elab_names::ElabFault;
use rdc_outside::Place;

/// The least weight that is refused.
const MOST: u32 = 1_048_576;

/// The least weight that is refused.
#[tactic(auto, unfolding(crate::specs::Limits::most_weight))]
fn most_weight() -> u32
    ensures { result ≡ most_weight }
{
    MOST
}

/// A number, as far as the limit.
#[tactic(auto, unfolding(crate::specs::Limits::capped, crate::specs::Limits::most_weight))]
pub(crate) fn capped(n: u64) -> u32
    ensures { result ≡ capped n }
{
    n.min(MOST as u64) as u32
}

/// A sum, as far as the limit.
pub(crate) fn plus(a: u32, b: u32) -> u32
    ensures { result ≡ capped (a + b) }
{
    capped(a as u64 + b as u64)
}

/// A product, as far as the limit.
pub(crate) fn times(a: u32, b: u32) -> u32
    ensures { result ≡ capped (a * b) }
{
    capped(a as u64 * b as u64)
}

/// Whether a weight is refused.
pub(crate) fn is_most(weight: u32) -> bool
    ensures { result ≡ nat_le most_weight weight }
{
    most_weight() <= weight
}

/// A weight, or `Heavy`.
#[tactic(auto, unfolding(crate::specs::Limits::weighed))]
pub(crate) fn weighed(weight: u32, place: Place) -> Result<u32, ElabFault>
    ensures { Answers (λ n. n) result (weighed place weight) }
{
    if weight < most_weight() {
        return Ok(weight);
    }
    Err(ElabFault::Heavy(place))
}

/// Want of memory.
pub(crate) fn fault(fault: EvalFault) -> ElabFault
    ensures { result ≡ Memory }
{
    match fault {
        EvalFault::Memory => ElabFault::Memory,
    }
}
