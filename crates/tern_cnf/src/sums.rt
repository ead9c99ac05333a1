//! A rail is a sum of products of lower rails.
ghost use Rattle.std.specs.Prelude.{◌≡◌, [], ◌∷◌, OnOk};
ghost use Rattle.tern_cnf.specs.Rails.{is_sum, is_difference};
ghost use Rattle.tern_cnf.specs.Grown.{with_clauses, IsAbove};

use crate::fault::EncodeFault;
use crate::writer::{both_imply, implies_either, implies_one, one_implies};
use sat_chain::Clauses;

/// The rail is another.
#[tactic(auto, using(crate::proofs::RailsLemmas::sums))]
pub fn is_copy(out: &mut Clauses, r: u32, a: u32) -> Result<(), EncodeFault>
    requires { IsAbove r (a ∷ []) out.old.vars }
    ensures { OnOk result (out.new ≡ with_clauses out.old (is_sum r ((a ∷ []) ∷ []))) }
{
    one_implies(out, a, r)?;
    implies_one(out, a, r)
}

/// The rail is a product of two.
#[tactic(auto, using(crate::proofs::RailsLemmas::sums))]
pub fn is_both(out: &mut Clauses, r: u32, a: u32, b: u32) -> Result<(), EncodeFault>
    requires { IsAbove r (a ∷ b ∷ []) out.old.vars }
    ensures { OnOk result (out.new ≡ with_clauses out.old (is_sum r ((a ∷ b ∷ []) ∷ []))) }
{
    both_imply(out, a, b, r)?;
    implies_one(out, a, r)?;
    implies_one(out, b, r)
}

/// The rail is a sum of two.
#[tactic(auto, using(crate::proofs::RailsLemmas::sums))]
pub fn is_either(out: &mut Clauses, r: u32, a: u32, b: u32) -> Result<(), EncodeFault>
    requires { IsAbove r (a ∷ b ∷ []) out.old.vars }
    ensures { OnOk result (out.new ≡ with_clauses out.old (is_sum r ((a ∷ []) ∷ (b ∷ []) ∷ []))) }
{
    one_implies(out, a, r)?;
    one_implies(out, b, r)?;
    implies_either(out, a, b, r)
}

/// The rail is the sum of two products of two.
#[tactic(auto, using(crate::proofs::RailsLemmas::sums))]
pub fn is_picked(
    out: &mut Clauses,
    r: u32,
    s: u32,
    a: u32,
    t: u32,
    b: u32,
) -> Result<(), EncodeFault>
    requires { IsAbove r (s ∷ a ∷ t ∷ b ∷ []) out.old.vars }
    ensures { OnOk result (out.new ≡ with_clauses out.old (is_sum r ((s ∷ a ∷ []) ∷ (t ∷ b ∷ []) ∷ []))) }
{
    both_imply(out, s, a, r)?;
    both_imply(out, t, b, r)?;
    implies_either(out, s, t, r)?;
    implies_either(out, s, b, r)?;
    implies_either(out, a, t, r)?;
    implies_either(out, a, b, r)
}

/// The rail holds where two nodes with these rails differ.
#[tactic(auto, using(crate::proofs::RailsLemmas::sums))]
pub fn is_difference(
    out: &mut Clauses,
    r: u32,
    a_one: u32,
    a_zero: u32,
    b_one: u32,
    b_zero: u32,
) -> Result<(), EncodeFault>
    requires { IsAbove r (a_one ∷ a_zero ∷ b_one ∷ b_zero ∷ []) out.old.vars }
    ensures { OnOk result (out.new ≡ with_clauses out.old (is_difference r a_one a_zero b_one b_zero)) }
{
    both_imply(out, a_one, b_zero, r)?;
    both_imply(out, a_zero, b_one, r)?;
    implies_either(out, a_one, b_one, r)?;
    implies_either(out, a_zero, b_zero, r)
}
