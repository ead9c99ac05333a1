//! What a flat design says in the form, names lent by the design.

use crate::steps::Expression;

/// What is declared.
#[derive(Clone, Copy, Debug, PartialEq, Eq, PartialOrd, Ord)]
pub enum Class {
    /// An input port of the top.
    Input,
    /// A wire.
    Net,
    /// A register.
    Register,
}

/// A signal.
#[derive(Clone, Copy, PartialEq, Eq, PartialOrd, Ord)]
pub struct Declared<'a> {
    pub name: &'a [u8],
    pub class: Class,
}

/// `assign TARGET = VALUE;`
#[derive(Drop)]
pub struct Assign<'a> {
    pub target: &'a [u8],
    pub value: Expression<'a>,
}

/// `always @(posedge CLOCK or EDGE EVENT) if ([!]TESTED) CLEARED <= VALUE; else LOADED <= DATA;`
#[derive(Drop)]
pub struct Process<'a> {
    pub clock: &'a [u8],
    /// The second event is a `negedge`.
    pub falling: bool,
    pub event: &'a [u8],
    /// A `!` stands before the tested name.
    pub negated: bool,
    pub tested: &'a [u8],
    pub cleared: &'a [u8],
    pub value: bool,
    pub loaded: &'a [u8],
    pub data: Expression<'a>,
}

/// The signals, what is assigned to wires, and the processes.
#[derive(Drop)]
pub struct Module<'a> {
    pub declared: Vec<Declared<'a>>,
    pub assigns: Vec<Assign<'a>>,
    pub processes: Vec<Process<'a>>,
}
