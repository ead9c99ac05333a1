//! The checker of one list of clauses and of what is derived from it.
ghost use Rattle.std.specs.Prelude.{◌≡◌, ◌+◌, ◌^◌, ◌<◌, ◌≤◌, ◌-◌, [], length, Ok, IfOk, vec_len};
ghost use Rattle.std.specs.Option.{option_copied};
ghost use Rattle.sat_chain.specs.Text.{literals_of, chain_of, given_line, derived_line, line_of};
ghost use Rattle.sat_chain.specs.Scan.{words_after, left_of};
ghost use Rattle.sat_chain.specs.Refutes.{Known, HasNoModel};
ghost use Rattle.sat_chain.specs.Answer.{LineAnswer, After, Answers};
ghost use Rattle.sat_chain.specs.Marks.{at, nothing};
ghost use Rattle.sat_chain.specs.declared.fault.Seen.TheVariants.{Empty};

use crate::clause_lines::{read_derived, read_given};
use crate::fault::{ChainFault, NewFault, Seen};
use crate::judge::judge;
use crate::words::{first_word, is_one};
use std::alloc::{AllocError, Global};
use std::marker::Model;

/// The clauses so far, and room for the lines that may follow.
#[derive(Drop)]
pub struct Checker {
    vars: u32,
    /// All literals, clause after clause.
    lits: Vec<i32>,
    /// Where each clause begins, and where the last one ends.
    bounds: Vec<usize>,
    /// Which clauses are given ones.
    given: Vec<bool>,
    /// The sign of each variable in the union, by its number. None between lines.
    marks: Vec<Option<bool>>,
    /// The numbers of the line that is read.
    chain: Vec<u64>,
    /// How many bytes of text may follow.
    room: usize,
}

impl Model for Checker {
    ghost use Rattle.sat_chain.specs.Refutes.{Known};

    ghost Value = { Known };

    ghost use Rattle.sat_chain.specs.Kept.{known, IsKept};

    ghost view = { known };

    ghost invariant = { IsKept };
}

impl Checker {
    /// A checker over so many variables, for lines of at most so many bytes in all, their line feeds left out. It takes
    /// all the memory that it will use.
    pub fn new(alloc: Global, vars: u32, bytes: usize) -> Result<Checker, NewFault>
        requires { vars < 2 ^ 31 }
        ensures { IfOk result (λ k. k ≡ record { vars = vars; given = []; clauses = []; room = bytes }) }
    {
        match made(alloc, vars, bytes) {
            Ok(checker) => Ok(checker),
            Err(_) => Err(NewFault::Memory),
        }
    }

    /// How many bytes of text may follow.
    pub fn room(&self) -> usize
        ensures { result ≡ self.now.room }
    {
        self.room
    }

    /// The answer to a line, its line feed left out. It takes no memory. After a fault the checker is as it was.
    pub fn line(&mut self, text: &[u8]) -> Result<Seen, ChainFault>
        requires { length text.now ≤ self.old.room }
        ensures value { LineAnswer self.old text.now result }
        ensures after { After self.old (length text.now) (line_of self.old.vars text.now) result self.new }
        ensures sound { result ≡ Ok Empty → HasNoModel self.new.given }
    {
        let (head, rest) = first_word(text);
        if is_one(head, b'c') {
            return self.given_line(rest, text.len());
        }
        if is_one(head, b'r') {
            return self.derived_line(rest, text.len());
        }
        Err(ChainFault::BadLine)
    }

    /// The answer to a given clause.
    fn given_line(&mut self, text: Option<&[u8]>, bytes: usize) -> Result<Seen, ChainFault>
        requires bytes { left_of (option_copied text) + 1 ≡ bytes }
        requires room { bytes ≤ self.old.room }
        ensures { Answers self.old bytes (given_line (literals_of self.old.vars (words_after (option_copied text.entry)))) result self.new }
    {
        if !read_given(text, self.vars, &mut self.lits) {
            return Err(ChainFault::BadLine);
        }
        self.bounds.push_reserved(self.lits.len());
        self.given.push_reserved(true);
        self.room -= bytes;
        Ok(Seen::Added)
    }

    /// The answer to a derived clause.
    fn derived_line(&mut self, text: Option<&[u8]>, bytes: usize) -> Result<Seen, ChainFault>
        requires bytes { left_of (option_copied text) + 1 ≡ bytes }
        requires room { bytes ≤ self.old.room }
        ensures { Answers self.old bytes (derived_line self.old.vars (chain_of (words_after (option_copied text.entry)))) result self.new }
    {
        let start = self.lits.len();
        if !read_derived(text, self.vars, &mut self.chain, &mut self.lits) {
            return Err(ChainFault::BadLine);
        }
        let (front, literals) = self.lits.as_slice().split_at(start);
        match judge(
            self.marks.as_mut_slice(),
            front,
            self.bounds.as_slice(),
            self.chain.as_slice(),
            literals,
        ) {
            Err(fault) => {
                self.lits.truncate(start);
                Err(fault)
            }
            Ok(seen) => {
                self.bounds.push_reserved(self.lits.len());
                self.given.push_reserved(false);
                self.room -= bytes;
                Ok(seen)
            }
        }
    }
}

/// So many marks, all empty.
fn empty_marks(alloc: Global, count: usize) -> Result<Vec<Option<bool>>, AllocError>
    ensures len { IfOk result (λ marks. vec_len marks ≡ count) }
    ensures emptied { IfOk result (λ marks. at marks.items ≡ nothing) }
{
    let mut marks = Vec::with_capacity(alloc, count)?;
    for i in 0..count {
        let _ = i;
        marks.push_reserved(None);
    }
    Ok(marks)
}

/// The memory of a checker.
fn made(alloc: Global, vars: u32, bytes: usize) -> Result<Checker, AllocError>
    requires { vars < 2 ^ 31 }
    ensures { IfOk result (λ k. k ≡ record { vars = vars; given = []; clauses = []; room = bytes }) }
{
    let lits = Vec::with_capacity(alloc, bytes / 2 + 1)?;
    let mut bounds = Vec::with_capacity(alloc, bytes / 5 + 2)?;
    let given = Vec::with_capacity(alloc, bytes / 5 + 1)?;
    let marks = empty_marks(alloc, vars as usize + 1)?;
    let chain = Vec::with_capacity(alloc, bytes / 2 + 1)?;
    bounds.push_reserved(0);
    Ok(Checker {
        vars,
        lits,
        bounds,
        given,
        marks,
        chain,
        room: bytes,
    })
}
