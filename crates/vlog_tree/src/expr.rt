//! Expressions (IEEE 1364-2005, A.8).

use crate::name::Name;
use crate::number::Number;
use crate::operator::{Binary, Unary};
use rdc_outside::Place;
use sqlite_items::{Boxed, Items};

/// How a part select is written.
#[derive(Clone, Copy, Debug, PartialEq, Eq)]
pub enum Part {
    /// `[msb : lsb]`
    Fixed,
    /// `[base +: width]`
    Up,
    /// `[base -: width]`
    Down,
}

/// An expression as it is written, its brackets with it. The place is that of its first token.
#[derive(Debug, Drop)]
pub enum Expr {
    Number(Place, Boxed<Number>),
    Name(Place, Name),
    /// `name[index]`
    Index(Place, Name, Boxed<Expr>),
    /// `name[first : second]`, with `+:` or `-:` in the place of `:`
    Select(Part, Place, Name, Boxed<Expr>, Boxed<Expr>),
    /// `(inner)`
    Brackets(Place, Boxed<Expr>),
    /// `{member, ..}`
    Concat(Place, Items<Expr>),
    /// `{count{member, ..}}`
    Repeat(Place, Boxed<Expr>, Items<Expr>),
    Unary(Place, Unary, Boxed<Expr>),
    Binary(Place, Binary, Boxed<Expr>, Boxed<Expr>),
    /// `test ? yes : no`
    Conditional(Place, Boxed<Expr>, Boxed<Expr>, Boxed<Expr>),
}
