//! A borrowed list whose entries have ids.
ghost use Rattle.std.specs.Prelude.{◌≡◌, ◌<◌, ◌≤◌, length, slice_get, MatchOption};

use crate::Id;
use std::marker::{Model, PhantomData};

/// Entries of the kind `T`, borrowed. The id of an entry is its place.
#[derive(Drop)]
pub struct IdSlice<'a, T, V> {
    entries: &'a [V],
    tag: PhantomData<T>,
}

impl<'a, T, V> Model for IdSlice<'a, T, V> {
    ghost use Rattle.std.specs.Prelude.{List};
    ghost use Rattle.std.specs.Coded.{coded_list};

    ghost Value = { List V };

    ghost coded = { coded_list V.code };

    ghost view = { λ slice. slice.entries.now };
}

impl<'a, T, V> IdSlice<'a, T, V> {
    /// The entries of a slice, as those of the kind `T`.
    pub fn new(entries: &'a [V]) -> IdSlice<'a, T, V>
        ensures { result ≡ entries.now }
    {
        IdSlice {
            entries,
            tag: PhantomData,
        }
    }

    pub fn len(&self) -> u64
        ensures { result ≡ length self.now }
    {
        self.entries.len() as u64
    }

    /// The entry of an id.
    pub fn get(&self, id: Id<T>) -> &V
        requires { id < length self.now }
        ensures { slice_get self.now id ≡ Some result.now }
    {
        entry(self.entries, id.number())
    }

    /// The id of a number, if it has an entry.
    pub fn try_id(&self, n: u64) -> Option<Id<T>>
        ensures { MatchOption result (length self.now ≤ n) (λ id. (id ≡ n) × (n < length self.now)) }
    {
        if n < self.len() {
            Some(Id::of(n))
        } else {
            None
        }
    }
}

/// The entry of a number.
pub(crate) fn entry<V>(entries: &[V], n: u64) -> &V
    requires { n < length entries.now }
    ensures { slice_get entries.now n ≡ Some result.now }
{
    &entries[n as usize]
}
