//! The signs of the variables up to the last one set, in order.
ghost use Rattle.std.specs.Prelude.{◌≡◌, ℕ, ◌+◌, ◌<◌, ◌≤◌, ◌^◌, ◌-◌, [], ◌∷◌, length, drop, slice_set, slice_index_or, not, false, None, Some, IfOk, MatchBool, ◌≢◌};
ghost use Rattle.sat_core.specs.Path.{sign_at};

use crate::answers::SolveFault;
use rdc_ids::Id;
use sat_chain::Clause;
use std::alloc::Global;

/// A sign for each variable up to the last one set, and a reason where it is no choice.
#[derive(Drop)]
pub struct Path {
    /// By the variable's number; nothing stands at 0.
    pub signs: Vec<bool>,
    /// The clause that would be false with the other sign.
    pub reasons: Vec<Option<Id<Clause>>>,
    /// The last variable that is set.
    pub top: usize,
}

/// A path with no variable set, over so many of them.
pub fn new_path(alloc: Global, vars: u32) -> Result<Path, SolveFault>
    ensures { IfOk result (λ p. (length p.signs.items ≡ vars + 1) × (length p.reasons.items ≡ vars + 1) × (p.top ≡ 0)) }
{
    let count = vars as usize + 1;
    let mut signs = Vec::with_capacity(alloc, count)?;
    let mut reasons = Vec::with_capacity(alloc, count)?;
    for i in 0..count {
        let _ = i;
        signs.push_reserved(false);
        reasons.push_reserved(None);
    }
    Ok(Path {
        signs,
        reasons,
        top: 0,
    })
}

impl Path {
    /// Whether the last variable that is set is a choice.
    pub fn is_choice(&self) -> bool
        requires { self.now.top < length self.now.reasons.items }
        ensures { MatchBool result (slice_index_or self.now.reasons.items self.now.top None ≡ None) (slice_index_or self.now.reasons.items self.now.top None ≢ None) }
    {
        self.reasons[self.top].is_none()
    }

    /// Sets the next variable, by choice.
    pub fn choose(&mut self)
        requires signs { self.old.top + 1 < length self.old.signs.items }
        requires reasons { self.old.top + 1 < length self.old.reasons.items }
        ensures signs { self.new.signs.items ≡ slice_set self.old.signs.items (self.old.top + 1) false }
        ensures reasons { self.new.reasons.items ≡ slice_set self.old.reasons.items (self.old.top + 1) None }
        ensures top { self.new.top ≡ self.old.top + 1 }
    {
        let next = self.top + 1;
        self.signs[next] = false;
        self.reasons[next] = None;
        self.top = next;
    }

    /// Turns the sign of a variable, for a reason, and unsets those after it.
    pub fn turn(&mut self, at: usize, reason: Id<Clause>)
        requires signs { at < length self.old.signs.items }
        requires reasons { at < length self.old.reasons.items }
        ensures signs { self.new.signs.items ≡ slice_set self.old.signs.items at (not (sign_at self.old.signs.items at)) }
        ensures reasons { self.new.reasons.items ≡ slice_set self.old.reasons.items at (Some reason) }
        ensures top { self.new.top ≡ at }
    {
        let sign = self.signs[at];
        self.signs[at] = !sign;
        self.reasons[at] = Some(reason);
        self.top = at;
    }
}

/// The signs from the first variable on.
pub fn values(alloc: Global, signs: &[bool]) -> Result<Vec<bool>, SolveFault>
    requires { 0 < length signs.now }
    ensures { IfOk result (λ values. values.items ≡ drop 1 signs.now) }
{
    let (_, values) = signs.split_at(1);
    Ok(values.to_vec(alloc)?)
}
