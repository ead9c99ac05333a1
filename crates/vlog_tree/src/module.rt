//! Modules (IEEE 1364-2005, A.1.2).

use crate::ident::Ident;
use crate::item::{Binding, Item};
use crate::port::{Port, Shape};
use rdc_outside::Place;
use sqlite_items::Items;

/// A parameter of a module's head.
#[derive(Debug, Drop)]
pub struct Parameter {
    pub shape: Shape,
    pub binding: Binding,
}

/// A module, from the word `module` at its place to `endmodule`.
#[derive(Debug, Drop)]
pub struct Module {
    pub place: Place,
    pub name: Ident,
    pub parameters: Items<Parameter>,
    pub ports: Items<Port>,
    pub items: Items<Item>,
}
