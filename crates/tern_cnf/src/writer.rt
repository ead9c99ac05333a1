//! Clauses of a rail and of one or two lower rails, written in their order.
ghost use Rattle.std.specs.Prelude.{◌≡◌, ◌^◌, ◌<◌, [], ◌∷◌, length, OnOk};
ghost use Rattle.sat_chain.specs.Clause.{IsClause};
ghost use Rattle.tern_cnf.specs.Written.{stated, negated, clause};
ghost use Rattle.tern_cnf.specs.Grown.{with_clauses, IsAbove};

use crate::fault::EncodeFault;
use sat_chain::Clauses;

/// The literal of a variable.
#[inline]
fn positive(v: u32) -> i32
    requires { v < 2 ^ 31 }
    ensures { result ≡ stated v }
{
    v as i32
}

/// The literal of a variable's negation.
#[inline]
fn negative(v: u32) -> i32
    requires { v < 2 ^ 31 }
    ensures { result ≡ negated v }
{
    -(v as i32)
}

/// A further clause.
#[inline]
pub fn add(out: &mut Clauses, lits: &[i32]) -> Result<(), EncodeFault>
    requires some { 0 < length lits.now }
    requires clause { IsClause out.old.vars lits.now }
    ensures { OnOk result (out.new ≡ with_clauses out.old (lits.now ∷ [])) }
{
    match out.add(lits) {
        Ok(_) => Ok(()),
        Err(_) => Err(EncodeFault::Memory),
    }
}

/// A rail holds.
#[tactic(auto, using(crate::proofs::WrittenLemmas::written))]
pub fn holds(out: &mut Clauses, r: u32) -> Result<(), EncodeFault>
    requires { IsAbove r [] out.old.vars }
    ensures { OnOk result (out.new ≡ with_clauses out.old (clause (stated r ∷ []))) }
{
    add(out, &[positive(r)])
}

/// A rail doesn't hold.
#[tactic(auto, using(crate::proofs::WrittenLemmas::written))]
pub fn fails(out: &mut Clauses, r: u32) -> Result<(), EncodeFault>
    requires { IsAbove r [] out.old.vars }
    ensures { OnOk result (out.new ≡ with_clauses out.old (clause (negated r ∷ []))) }
{
    add(out, &[negative(r)])
}

/// One of two rails holds.
#[tactic(auto, using(crate::proofs::WrittenLemmas::written))]
pub fn either_holds(out: &mut Clauses, a: u32, r: u32) -> Result<(), EncodeFault>
    requires { IsAbove r (a ∷ []) out.old.vars }
    ensures { OnOk result (out.new ≡ with_clauses out.old (clause (stated a ∷ stated r ∷ []))) }
{
    add(out, &[positive(a), positive(r)])
}

/// One of two rails doesn't hold.
#[tactic(auto, using(crate::proofs::WrittenLemmas::written))]
pub fn either_fails(out: &mut Clauses, a: u32, r: u32) -> Result<(), EncodeFault>
    requires { IsAbove r (a ∷ []) out.old.vars }
    ensures { OnOk result (out.new ≡ with_clauses out.old (clause (negated a ∷ negated r ∷ []))) }
{
    add(out, &[negative(a), negative(r)])
}

/// Where the lower rail holds, the other does.
#[tactic(auto, using(crate::proofs::WrittenLemmas::written))]
pub fn one_implies(out: &mut Clauses, a: u32, r: u32) -> Result<(), EncodeFault>
    requires { IsAbove r (a ∷ []) out.old.vars }
    ensures { OnOk result (out.new ≡ with_clauses out.old (clause (negated a ∷ stated r ∷ []))) }
{
    add(out, &[negative(a), positive(r)])
}

/// Where the rail holds, the lower one does.
#[tactic(auto, using(crate::proofs::WrittenLemmas::written))]
pub fn implies_one(out: &mut Clauses, a: u32, r: u32) -> Result<(), EncodeFault>
    requires { IsAbove r (a ∷ []) out.old.vars }
    ensures { OnOk result (out.new ≡ with_clauses out.old (clause (stated a ∷ negated r ∷ []))) }
{
    add(out, &[positive(a), negative(r)])
}

/// Where both lower rails hold, the other does.
#[tactic(auto, using(crate::proofs::WrittenLemmas::written))]
pub fn both_imply(out: &mut Clauses, a: u32, b: u32, r: u32) -> Result<(), EncodeFault>
    requires { IsAbove r (a ∷ b ∷ []) out.old.vars }
    ensures { OnOk result (out.new ≡ with_clauses out.old (clause (negated a ∷ negated b ∷ stated r ∷ []))) }
{
    if a < b {
        return add(out, &[negative(a), negative(b), positive(r)]);
    }
    if b < a {
        return add(out, &[negative(b), negative(a), positive(r)]);
    }
    add(out, &[negative(a), positive(r)])
}

/// Where the rail holds, one of the lower two does.
#[tactic(auto, using(crate::proofs::WrittenLemmas::written))]
pub fn implies_either(out: &mut Clauses, a: u32, b: u32, r: u32) -> Result<(), EncodeFault>
    requires { IsAbove r (a ∷ b ∷ []) out.old.vars }
    ensures { OnOk result (out.new ≡ with_clauses out.old (clause (stated a ∷ stated b ∷ negated r ∷ []))) }
{
    if a < b {
        return add(out, &[positive(a), positive(b), negative(r)]);
    }
    if b < a {
        return add(out, &[positive(b), positive(a), negative(r)]);
    }
    add(out, &[positive(a), negative(r)])
}
