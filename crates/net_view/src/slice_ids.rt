//! Ids of a slice's nodes and sources.

ghost use Rattle.std.specs.Prelude.{◌≡◌, IfOk};

use std::alloc::AllocError;
use std::marker::{Model, PhantomData};

/// A node of a slice of a view whose nodes are `N`.
pub struct SliceNode<N> {
    number: u32,
    tag: PhantomData<N>,
}

impl<N> Model for SliceNode<N> {
    ghost use Rattle.std.specs.Prelude.{ℕ};

    ghost Value = { ℕ };

    ghost view = { λ id. id.number };

    ghost inverse = { λ n. record { number = n; tag = record {} } };
}

impl<N> SliceNode<N> {
    pub(crate) fn of(number: u32) -> SliceNode<N>
        ensures { result ≡ number }
    {
        SliceNode {
            number,
            tag: PhantomData,
        }
    }

    /// The number, counted from 0.
    pub fn number(self) -> u32
        ensures { result ≡ self }
    {
        self.number
    }
}

impl<N> Clone for SliceNode<N> {
    fn clone(&self) -> Result<SliceNode<N>, AllocError>
        ensures { IfOk result (λ id. id ≡ self.now) }
    {
        Ok(SliceNode::of(self.number))
    }
}

impl<N> Copy for SliceNode<N> {}

/// A source of a slice of a view whose sources are `S`.
pub struct SliceSrc<S> {
    number: u32,
    tag: PhantomData<S>,
}

impl<S> Model for SliceSrc<S> {
    ghost use Rattle.std.specs.Prelude.{ℕ};

    ghost Value = { ℕ };

    ghost view = { λ id. id.number };

    ghost inverse = { λ n. record { number = n; tag = record {} } };
}

impl<S> SliceSrc<S> {
    pub(crate) fn of(number: u32) -> SliceSrc<S>
        ensures { result ≡ number }
    {
        SliceSrc {
            number,
            tag: PhantomData,
        }
    }

    /// The number, counted from 0.
    pub fn number(self) -> u32
        ensures { result ≡ self }
    {
        self.number
    }
}

impl<S> Clone for SliceSrc<S> {
    fn clone(&self) -> Result<SliceSrc<S>, AllocError>
        ensures { IfOk result (λ id. id ≡ self.now) }
    {
        Ok(SliceSrc::of(self.number))
    }
}

impl<S> Copy for SliceSrc<S> {}
