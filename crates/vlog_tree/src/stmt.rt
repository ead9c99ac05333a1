//! Statements and what starts them (IEEE 1364-2005, A.6).

use crate::expr::Expr;
use crate::ident::Ident;
use rdc_outside::Place;
use sqlite_items::{Boxed, Items};

/// `=` or `<=`
#[derive(Clone, Copy, Debug, PartialEq, Eq)]
pub enum Assigns {
    Blocking,
    Nonblocking,
}

/// `case` or `casez`
#[derive(Clone, Copy, Debug, PartialEq, Eq)]
pub enum Matching {
    Exact,
    Wildcard,
}

/// A case item: its labels, none of them for `default`, and what they lead to.
#[derive(Debug, Drop)]
pub struct Arm<B> {
    pub place: Place,
    pub labels: Items<Expr>,
    pub body: B,
}

/// `(variable = start; test; stepped = step)`
#[derive(Debug, Drop)]
pub struct Loop {
    pub variable: Ident,
    pub start: Boxed<Expr>,
    pub test: Boxed<Expr>,
    pub stepped: Ident,
    pub step: Boxed<Expr>,
}

/// A statement. The place is that of its first token.
#[derive(Debug, Drop)]
pub enum Stmt {
    /// `;`
    Empty(Place),
    /// `begin .. end`, with a name or without
    Block(Place, Option<Ident>, Items<Stmt>),
    /// `target = value;` or `target <= value;`
    Assign(Place, Expr, Assigns, Expr),
    If(Place, Expr, Boxed<Stmt>, Option<Boxed<Stmt>>),
    Case(Place, Matching, Expr, Items<Arm<Boxed<Stmt>>>),
    For(Place, Loop, Boxed<Stmt>),
}

/// Which change of a name an event is.
#[derive(Clone, Copy, Debug, PartialEq, Eq)]
pub enum Edge {
    Any,
    Rising,
    Falling,
}

/// `[posedge|negedge] name [index]`
#[derive(Debug, Drop)]
pub struct Event {
    pub edge: Edge,
    pub name: Ident,
    pub index: Option<Boxed<Expr>>,
}

/// What a process waits for.
#[derive(Debug, Drop)]
pub enum Control {
    /// `*` or `(*)`
    Reads,
    Events(Items<Event>),
}
