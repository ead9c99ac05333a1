//! The domains of resets.

ghost use Rattle.std.specs.Prelude.{◌≡◌, ◌↔◌, ℕ, ◌<◌, length, All, IfOk};
ghost use Rattle.net_view.specs.Cone.{Lists};
ghost use Rattle.cons_bind.specs.Binding.{forms_of};
ghost use Rattle.cons_bind.specs.Names.{Net};
ghost use Rattle.reset_trees.specs.Domain.{InDomain};
ghost use Rattle.cons_bind.specs.Names.{net_of};
ghost use Rattle.reset_trees.specs.Domains.{reset_in, AreInside, AreDomainsOf};
ghost use Rattle.reset_trees.specs.Trees.{ArePinCones};
ghost use Rattle.reset_trees.specs.Reach.{IsStep};
ghost use Rattle.reset_trees.specs.Reads.{PinReads};
ghost use Rattle.reset_trees.specs.PinSteps.{IsPinStep};

use crate::answers::DomainOf;
use crate::graph::push_each;
use crate::reach::reached;
use crate::trees::{PinCone, Trees};
use cons_bind::{Bound, BoundForm, BoundLine};
use net_view::FlopNet;
use rdc_outside::Seq;
use std::alloc::{AllocError, Global};

/// So many numbers without steps.
fn no_steps(alloc: Global, count: u32) -> Result<Vec<Seq<u32>>, AllocError>
    ensures none { IfOk result (λ steps. (m n : ℕ) → IsStep steps.items m n → ⊥) }
    ensures len { IfOk result (λ steps. length steps.items ≡ count) }
{
    let mut steps = Vec::new(alloc);
    'steps: for _made in 0..count {
        steps.push(Seq::new(alloc))?;
    }
    Ok(steps)
}

/// A step from each source that a pin reads to the pin's flop.
fn followers(alloc: Global, count: u32, pins: &[PinCone]) -> Result<Vec<Seq<u32>>, AllocError>
    requires { All (λ pin. All (λ s. s < count) pin.sources) pins.now }
    ensures steps { IfOk result (λ steps. (s f : ℕ) → IsStep steps.items s f ↔ IsPinStep pins.now s f) }
    ensures len { IfOk result (λ steps. length steps.items ≡ count) }
{
    let mut steps = no_steps(alloc, count)?;
    'pins: for pin in pins {
        push_each(&mut steps, pin.sources.as_slice(), pin.flop)?;
    }
    Ok(steps)
}

/// The reset that a line declares.
fn reset_of(form: &BoundForm) -> Option<u32>
    ensures { result ≡ reset_in form.now }
{
    match form {
        BoundForm::Reset(source, _) => Some(*source),
        _ => None,
    }
}

/// The flops that a reset can reset.
fn domain(alloc: Global, followers: &[Seq<u32>], reset: u32) -> Result<DomainOf, AllocError>
    requires inside { reset < length followers.now }
    requires closed { (m n : ℕ) → IsStep followers.now m n → n < length followers.now }
    ensures reset { IfOk result (λ d. d.reset ≡ reset) }
    ensures flops { IfOk result (λ d. (net : Net) → ((s f : ℕ) → IsStep followers.now s f ↔ PinReads net f s) → Lists (InDomain net reset) d.flops) }
{
    let flops = reached(alloc, followers, followers[reset as usize].as_slice())?;
    Ok(DomainOf {
        reset,
        flops: Seq::from_vec(flops),
    })
}

/// Each declared reset with its domain, in the order of the lines.
fn domains_of(
    alloc: Global,
    followers: &[Seq<u32>],
    lines: &[BoundLine],
) -> Result<Seq<DomainOf>, AllocError>
    requires inside { AreInside (length followers.now) (forms_of lines.now) }
    requires closed { (m n : ℕ) → IsStep followers.now m n → n < length followers.now }
    ensures { IfOk result (λ resets. (net : Net) → ((s f : ℕ) → IsStep followers.now s f ↔ PinReads net f s) → AreDomainsOf net (forms_of lines.now) resets) }
{
    let mut resets = Seq::new(alloc);
    'lines: for line in lines {
        if let Some(reset) = reset_of(&line.form) {
            resets.push(domain(alloc, followers, reset)?)?;
        }
    }
    Ok(resets)
}

/// Each declared reset with its domain, in the order of the lines.
///
/// It goes over the cones of the pins once, and costs for each reset what its domain costs.
pub fn reset_domains<V: FlopNet>(
    alloc: Global,
    view: &V,
    trees: &Trees,
    bound: &Bound,
) -> Result<Seq<DomainOf>, AllocError>
    requires trees { ArePinCones (net_of (V.gates view.now) (V.names view.now) (V.kinds view.now) (V.named_bits view.now)) trees.now.pins }
    requires lines { AreInside (V.source_count view.now) (forms_of bound.now.lines) }
    ensures { IfOk result (λ resets. AreDomainsOf (net_of (V.gates view.now) (V.names view.now) (V.kinds view.now) (V.named_bits view.now)) (forms_of bound.now.lines) resets) }
{
    let _bits = view.bits();
    let _nodes = view.nodes();
    let steps = followers(alloc, view.sources(), trees.pins.as_slice())?;
    domains_of(alloc, &steps, bound.lines.as_slice())
}
