//! How a declaration speaks of a name.

use rdc_outside::Place;
use vlog_tree::Direction;

/// What a declaration says of its name.
#[derive(Clone, Copy, Debug, PartialEq, Eq)]
pub enum Sort {
    /// It stands alone in the list of ports.
    Listed,
    /// It is declared in the list of ports.
    Headed(Direction),
    /// It is declared by an item for ports.
    Directed(Direction),
    Wire,
    Register,
    Integer,
    Genvar,
    /// A parameter, a gate or an instance.
    Thing,
}

/// One declaration of a name.
#[derive(Clone, Copy, Debug, PartialEq, Eq)]
pub struct Mention {
    pub place: Place,
    pub sort: Sort,
    /// Whether `signed` is written.
    pub signed: bool,
}
