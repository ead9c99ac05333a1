//! A list of clauses, with an id for each.
ghost use Rattle.std.specs.Prelude.{◌≡◌, ◌<◌, ◌≤◌, ◌^◌, ◌++◌, ◌∷◌, [], length, slice_get, Some, MatchOption, MatchResult};
ghost use Rattle.sat_chain.specs.Clause.{IsClause, AreClauses};

use crate::fault::AddFault;
use rdc_ids::{Id, IdVec};
use std::alloc::Global;
use std::marker::Model;

/// The tag of a clause's id.
pub enum Clause {}

/// Where a clause lies among the literals.
#[derive(Clone, Copy, Debug)]
pub(crate) struct Place {
    pub start: usize,
    pub end: usize,
}

/// Clauses over a count of variables, each its literals ascending by variable. All literals lie in one list.
#[derive(Drop)]
pub struct Clauses {
    vars: u32,
    lits: Vec<i32>,
    places: IdVec<Clause, Place>,
}

impl Model for Clauses {
    ghost use Rattle.sat_chain.specs.Clause.{Problem};

    ghost Value = { Problem };

    ghost use Rattle.sat_chain.specs.Placed.{problem, IsPlaced};

    ghost view = { problem };

    ghost invariant = { IsPlaced };
}

impl Clauses {
    /// No clause yet, over so many variables. It takes no memory.
    pub fn new(alloc: Global, vars: u32) -> Clauses
        requires { vars < 2 ^ 31 }
        ensures { result ≡ record { vars = vars; clauses = [] } }
    {
        Clauses {
            vars,
            lits: Vec::new(alloc),
            places: IdVec::new(alloc),
        }
    }

    /// The count of variables.
    pub fn vars(&self) -> u32
        ensures { result ≡ self.now.vars }
    {
        self.vars
    }

    /// The number of clauses.
    pub fn len(&self) -> u64
        ensures value { result ≡ length self.now.clauses }
        ensures lawful { AreClauses self.now.vars self.now.clauses }
        ensures few { self.now.vars < 2 ^ 31 }
    {
        self.places.len()
    }

    /// The id of a number, counted from 0, if it is a clause's.
    pub fn try_id(&self, n: u64) -> Option<Id<Clause>>
        ensures { MatchOption result (length self.now.clauses ≤ n) (λ id. (id ≡ n) × (n < length self.now.clauses)) }
    {
        self.places.try_id(n)
    }

    /// The literals of a clause.
    pub fn lits(&self, id: Id<Clause>) -> &[i32]
        requires { id < length self.now.clauses }
        ensures { slice_get self.now.clauses id ≡ Some result.now }
    {
        let place = self.places.get(id);
        let (front, _) = self.lits.as_slice().split_at(place.end);
        let (_, lits) = front.split_at(place.start);
        lits
    }

    /// Appends a clause. Without memory the clauses stay as they were.
    pub fn add(&mut self, lits: &[i32]) -> Result<Id<Clause>, AddFault>
        requires some { 0 < length lits.now }
        requires clause { IsClause self.old.vars lits.now }
        ensures { MatchResult result (λ id. (id ≡ length self.old.clauses) × (self.new ≡ record { vars = self.old.vars; clauses = self.old.clauses ++ lits.now ∷ [] })) (λ _. self.new ≡ self.old) }
    {
        let start = self.lits.len();
        let Ok(_) = self.lits.extend_from_slice(lits) else {
            return Err(AddFault::Memory);
        };
        let place = Place {
            start,
            end: self.lits.len(),
        };
        match self.places.push(place) {
            Ok(id) => Ok(id),
            Err(_) => {
                self.lits.truncate(start);
                Err(AddFault::Memory)
            }
        }
    }
}
