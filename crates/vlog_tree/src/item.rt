//! What a module is made of (IEEE 1364-2005, A.1.4, A.2, A.3 and A.4).

use crate::expr::Expr;
use crate::ident::Ident;
use crate::port::{Direction, Shape};
use crate::stmt::{Arm, Control, Loop, Stmt};
use rdc_outside::Place;
use sqlite_items::{Boxed, Items};

/// A declared wire, with its driver if one is written.
#[derive(Debug, Drop)]
pub struct Net {
    pub name: Ident,
    pub driver: Option<Expr>,
}

/// `name = value`
#[derive(Debug, Drop)]
pub struct Binding {
    pub name: Ident,
    pub value: Expr,
}

/// `target = value`
#[derive(Debug, Drop)]
pub struct Assignment {
    pub target: Expr,
    pub value: Expr,
}

#[derive(Clone, Copy, Debug, PartialEq, Eq)]
pub enum GateKind {
    And,
    Nand,
    Or,
    Nor,
    Xor,
    Xnor,
    Not,
    Buf,
}

/// One gate, its terminals in order.
#[derive(Debug, Drop)]
pub struct Gate {
    pub place: Place,
    pub name: Option<Ident>,
    pub terminals: Items<Expr>,
}

/// `.name(value)`, with or without a value
#[derive(Debug, Drop)]
pub struct NamedConnection {
    pub name: Ident,
    pub value: Option<Expr>,
}

/// What is bound to ports or parameters, in their order or by their names.
#[derive(Debug, Drop)]
pub enum Connections {
    Ordered(Items<Option<Expr>>),
    Named(Items<NamedConnection>),
}

/// `name (connections)`
#[derive(Debug, Drop)]
pub struct Instance {
    pub name: Ident,
    pub connections: Connections,
}

/// What a generate construct holds: one item, none, or those between `begin` and `end`.
#[derive(Debug, Drop)]
pub struct Block<I> {
    pub name: Option<Boxed<Ident>>,
    pub items: I,
}

/// An item of a module. The place is that of its first token.
#[derive(Debug, Drop)]
pub enum Item {
    /// A declaration of ports.
    Ports(Place, Direction, Shape, Items<Ident>),
    Wires(Place, Shape, Items<Net>),
    Registers(Place, Shape, Items<Ident>),
    Integers(Place, Items<Ident>),
    Genvars(Place, Items<Ident>),
    Parameters(Place, Shape, Items<Binding>),
    /// `localparam`
    Constants(Place, Shape, Items<Binding>),
    Assign(Place, Items<Assignment>),
    Always(Place, Control, Stmt),
    Gates(Place, GateKind, Items<Gate>),
    /// Instances of a module, by its name, with the parameters that are passed.
    Instances(Place, Ident, Connections, Items<Instance>),
    Generate(Place, Items<Item>),
    /// A generate loop, its block's name, and its items.
    For(Place, Loop, Ident, Items<Item>),
    If(Place, Expr, Block<Items<Item>>, Option<Block<Items<Item>>>),
    Case(Place, Expr, Items<Arm<Block<Items<Item>>>>),
}
