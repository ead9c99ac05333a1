//! A list that grows, whose entries have ids.
ghost use Rattle.std.specs.Prelude.{◌≡◌, ◌<◌, ◌≤◌, [], ◌∷◌, ◌++◌, length, slice_get, MatchOption, MatchResult};

use crate::id_slice::entry;
use crate::{Id, IdSlice, PushFault};
use std::alloc::Global;
use std::marker::{Model, PhantomData};

/// Entries of the kind `T`. The id of an entry is its place, and no entry is ever moved or removed.
#[derive(Drop)]
pub struct IdVec<T, V> {
    entries: Vec<V>,
    tag: PhantomData<T>,
}

impl<T, V> Model for IdVec<T, V> {
    ghost use Rattle.std.specs.Prelude.{List};
    ghost use Rattle.std.specs.Coded.{coded_list};

    ghost Value = { List V };

    ghost coded = { coded_list V.code };

    ghost view = { λ vec. vec.entries.items };
}

impl<T, V> IdVec<T, V> {
    /// No entry. It keeps the allocator for its `push`, and takes no memory yet.
    pub fn new(alloc: Global) -> IdVec<T, V>
        ensures { result ≡ [] }
    {
        IdVec {
            entries: Vec::new(alloc),
            tag: PhantomData,
        }
    }

    /// The same entries, borrowed.
    pub fn as_slice(&self) -> IdSlice<'_, T, V>
        ensures { result ≡ self.now }
    {
        IdSlice::new(self.entries.as_slice())
    }

    pub fn len(&self) -> u64
        ensures { result ≡ length self.now }
    {
        self.entries.len() as u64
    }

    /// The entry of an id.
    pub fn get(&self, id: Id<T>) -> &V
        requires { id < length self.now }
        ensures { slice_get self.now id ≡ Some result.now }
    {
        entry(self.entries.as_slice(), id.number())
    }

    /// The id of a number, if it has an entry.
    pub fn try_id(&self, n: u64) -> Option<Id<T>>
        ensures { MatchOption result (length self.now ≤ n) (λ id. (id ≡ n) × (n < length self.now)) }
    {
        if n < self.len() {
            Some(Id::of(n))
        } else {
            None
        }
    }

    /// Appends an entry. Without memory the list stays as it was.
    pub fn push(&mut self, value: V) -> Result<Id<T>, PushFault>
    where
        V: Drop,
        ensures ok { MatchResult result (λ id. (id ≡ length self.old) × (self.new ≡ self.old ++ value ∷ [])) (λ _. self.new ≡ self.old) }
    {
        let id = Id::of(self.len());
        self.entries.push(value)?;
        Ok(id)
    }
}
