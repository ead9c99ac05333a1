//! An id: a number with a tag that no id of another kind has.
ghost use Rattle.std.specs.Prelude.{◌≡◌, IfOk};

use std::alloc::AllocError;
use std::marker::{Model, PhantomData};

/// The number of an entry. The tag `T` keeps ids of different kinds apart, and is never made.
pub struct Id<T> {
    number: u64,
    tag: PhantomData<T>,
}

impl<T> Model for Id<T> {
    ghost use Rattle.std.specs.Prelude.{ℕ};

    ghost Value = { ℕ };

    ghost view = { λ id. id.number };

    ghost inverse = { λ n. record { number = n; tag = record {} } };
}

impl<T> Id<T> {
    pub(crate) fn of(number: u64) -> Id<T>
        ensures { result ≡ number }
    {
        Id {
            number,
            tag: PhantomData,
        }
    }

    /// The number, counted from 0.
    pub fn number(self) -> u64
        ensures { result ≡ self }
    {
        self.number
    }
}

impl<T> Clone for Id<T> {
    fn clone(&self) -> Result<Id<T>, AllocError>
        ensures { IfOk result (λ id. id ≡ self.now) }
    {
        Ok(Id::of(self.number))
    }
}

impl<T> Copy for Id<T> {}
