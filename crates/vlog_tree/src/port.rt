//! Ports and declared shapes (IEEE 1364-2005, A.1.3 and A.2).

use crate::expr::Expr;
use crate::ident::Ident;
use sqlite_items::Boxed;

/// `[msb : lsb]`
#[derive(Debug, Drop)]
pub struct Range {
    pub msb: Expr,
    pub lsb: Expr,
}

/// What stands before a declared name: `signed` or nothing, and a range or none.
#[derive(Debug, Drop)]
pub struct Shape {
    pub signed: bool,
    pub range: Option<Boxed<Range>>,
}

/// What a port is declared as. `wire` behind `input` or `output` says nothing further.
#[derive(Clone, Copy, Debug, PartialEq, Eq)]
pub enum Direction {
    Input,
    Output,
    /// `output reg`
    Register,
}

/// A port in the list of a module's head.
#[derive(Debug, Drop)]
pub enum Port {
    /// With its direction.
    Declared(Direction, Shape, Ident),
    /// By its name alone.
    Named(Ident),
}
