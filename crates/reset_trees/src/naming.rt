//! The first of some sources by name.

ghost use Rattle.std.specs.Prelude.{◌≡◌, ◌⊎◌, ℕ, ◌<◌, ◌^◌, length, MatchOption, Some, IfSome, IfOk};
ghost use Rattle.net_view.specs.PinOrder.{IsNamedBefore, name_of};
ghost use Rattle.reset_trees.specs.Reads.{IsFirst};
ghost use Rattle.reset_trees.specs.Tables.{names_in, IsMarked};
ghost use Rattle.std.specs.Ordering.{nat_cmp, is_lt};
ghost use Rattle.std.specs.Cmp.Lexicographic.{slice_cmp};

use rdc_outside::Seq;
use std::alloc::{AllocError, Global};

/// Whether the name of one source comes before that of another.
fn is_before(names: &[&str], a: u32, b: u32) -> bool
    requires a_is_in { a < length names.now }
    requires b_is_in { b < length names.now }
    ensures { result ≡ is_lt (slice_cmp nat_cmp (name_of (names_in names.now) a) (name_of (names_in names.now) b)) }
{
    names[a as usize].cmp(names[b as usize]).is_lt()
}

/// The first of the marked sources by name.
pub(crate) fn first_named(names: &[&str], marks: &[bool]) -> Option<u32>
    requires few { length marks.now < 2 ^ 32 }
    requires each { length marks.now ≡ length names.now }
    ensures first { MatchOption result ((s : ℕ) → IsMarked marks.now s → ⊥) (λ s. IsFirst (names_in names.now) (IsMarked marks.now) s) }
    ensures inside { IfSome result (λ s. s < length names.now) }
{
    let mut best = None;
    'sources: for s in 0..marks.len() as u32 {
        if marks[s as usize] {
            best = better(names, best, s);
        }
    }
    best
}

/// The first by name of a source and one of a greater number.
fn better(names: &[&str], best: Option<u32>, s: u32) -> Option<u32>
    requires s_is_in { s < length names.now }
    requires best_is_in { IfSome best (λ b. (b < s) × (b < length names.now)) }
    ensures { MatchOption best (result ≡ Some s) (λ b. ((result ≡ Some s) × IsNamedBefore (names_in names.now) s b) ⊎ ((result ≡ Some b) × IsNamedBefore (names_in names.now) b s)) }
{
    match best {
        None => Some(s),
        Some(b) => {
            if is_before(names, s, b) {
                Some(s)
            } else {
                Some(b)
            }
        }
    }
}

/// A copy of a source's name.
pub(crate) fn name_at(alloc: Global, names: &[&str], s: u32) -> Result<Seq<u8>, AllocError>
    requires { s < length names.now }
    ensures { IfOk result (λ name. name ≡ name_of (names_in names.now) s) }
{
    let mut bytes = Vec::new(alloc);
    bytes.extend_from_slice(names[s as usize].as_bytes())?;
    Ok(Seq::from_vec(bytes))
}
