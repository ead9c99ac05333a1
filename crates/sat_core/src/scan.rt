//! The scan for a clause that is false by the signs so far.
ghost use Rattle.std.specs.Prelude.{◌≡◌, ◌<◌, [], length, false, true, slice_index_or, MatchOption};
ghost use Rattle.sat_core.specs.Path.{sign_at, is_false_literal, is_false, some_false};

use rdc_ids::Id;
use sat_chain::{Clause, Clauses};

/// Whether a literal is of a variable up to the last one set, and false.
#[inline]
fn is_false_literal(signs: &[bool], top: usize, lit: &i32) -> bool
    requires { top < length signs.now }
    ensures { result ≡ is_false_literal (sign_at signs.now) top lit.now }
{
    let variable = lit.unsigned_abs() as usize;
    if variable > top {
        return false;
    }
    signs[variable] != (*lit >= 0)
}

/// Whether each literal of a clause is.
fn is_false(signs: &[bool], top: usize, clause: &[i32]) -> bool
    requires { top < length signs.now }
    ensures { result ≡ is_false (sign_at signs.now) top clause.now }
{
    for lit in clause {
        if !is_false_literal(signs, top, lit) {
            return false;
        }
    }
    true
}

/// The first clause that is false by the signs of the variables up to the last one set.
pub fn find_false(store: &Clauses, signs: &[bool], top: usize) -> Option<Id<Clause>>
    requires { top < length signs.now }
    ensures { MatchOption result (some_false (sign_at signs.now) top store.now.clauses ≡ false)
        (λ id. (id < length store.now.clauses) × (is_false (sign_at signs.now) top (slice_index_or store.now.clauses id []) ≡ true)) }
{
    for n in 0..store.len() {
        let Some(id) = store.try_id(n) else {
            return None;
        };
        if is_false(signs, top, store.lits(id)) {
            return Some(id);
        }
    }
    None
}
