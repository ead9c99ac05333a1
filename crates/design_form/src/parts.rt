//! What a flat design is made of. Each name in it is that of a signal, as it is printed.

use crate::signal::{Bounds, Signal};
use rdc_outside::{Place, Seq};
use sqlite_items::Items;
use vlog_tree::{Control, Expr, GateKind, Stmt};

/// Where a driver comes from. Both mean what an `assign` means.
#[derive(Clone, Copy, Debug, PartialEq, Eq)]
pub enum DriverKind {
    /// An `assign`, or the driver of a declared wire.
    Assign,
    /// What is bound to a port of an instance.
    Binding,
}

/// `assign target = value;`
#[derive(Drop)]
pub struct Driver {
    pub place: Place,
    pub kind: DriverKind,
    pub target: Expr,
    pub value: Expr,
}

/// `always @ control body`
#[derive(Drop)]
pub struct Process {
    pub place: Place,
    pub control: Control,
    pub body: Stmt,
}

/// One gate, its terminals in order.
#[derive(Drop)]
pub struct GateUse {
    pub place: Place,
    pub kind: GateKind,
    pub terminals: Items<Expr>,
}

/// Whether a port is driven from outside or from inside.
#[derive(Clone, Copy, Debug, PartialEq, Eq)]
pub enum Side {
    Input,
    Output,
}

/// A port of a black box. Its bits belong to the signal of the box's name, a dot and its own name.
#[derive(Drop)]
pub struct BoxPort {
    pub name: Seq<u8>,
    pub side: Side,
    pub range: Option<Bounds>,
}

/// An instance of a module that is known by its ports alone.
#[derive(Drop)]
pub struct BlackBox {
    pub place: Place,
    /// The hierarchical name of the instance.
    pub name: Seq<u8>,
    pub module: Seq<u8>,
    /// Whether parameters are passed to it.
    pub has_parameters: bool,
    pub ports: Seq<BoxPort>,
}

/// A port of the top, which is the signal of that name.
#[derive(Drop)]
pub struct TopPort {
    pub name: Seq<u8>,
    pub side: Side,
}

/// A flat design as plain data. Parameters and genvars don't occur: numbers stand in their place.
#[derive(Drop)]
pub struct Parts {
    /// In name order, each name once.
    pub signals: Seq<Signal>,
    pub drivers: Seq<Driver>,
    pub processes: Seq<Process>,
    pub gates: Seq<GateUse>,
    pub boxes: Seq<BlackBox>,
    /// The ports of the top, in their order.
    pub ports: Seq<TopPort>,
}

impl Parts {
    ghost use Rattle.std.specs.Prelude.{◌↔◌, ◌<◌, ◌^◌, IsTrue, length};
    ghost use Rattle.design_form.specs.Numbers.{printed};

    /// Whether the bits can be numbered: there are fewer than 2^32.
    pub fn is_countable(&self) -> bool
        ensures { IsTrue result ↔ (length (printed self.now.signals) < 2 ^ 32) }
    {
        let mut count: u64 = 0;
        for signal in self.signals.as_slice() {
            count += signal.bounds().width() as u64;
            if 1 << 32 <= count {
                return false;
            }
        }
        true
    }
}
