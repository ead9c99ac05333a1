//! Why a design is not elaborated.

use rdc_outside::{Place, Seq};
use std::alloc::{AllocError, AllocFailed};
use vlog_const::ConstFault;

/// Why a design is not elaborated. Each place is that of the first token of what is named.
#[derive(Debug, Drop)]
pub enum ElabFault {
    /// There is no memory for what is left to be elaborated.
    Memory,
    /// No module of that name, which stands where it is instantiated; the top's stands nowhere.
    NoModule(Seq<u8>, Option<Place>),
    /// A second module of one name.
    TwoModules(Seq<u8>, Place),
    /// A connection to a port that the module doesn't have.
    NoPort(Seq<u8>, Place),
    /// More connections than ports.
    PortCount(Place),
    /// A name that is not declared.
    Undeclared(Seq<u8>, Place),
    /// A second declaration of one name.
    TwiceDeclared(Seq<u8>, Place),
    /// What can't be assigned.
    NotAssignable(Place),
    /// An instance of a module within itself.
    Recursion(Seq<u8>, Place),
    /// Too deep a hierarchy.
    HierLimit(Place),
    /// A range or a select that the standard or this program rules out.
    BadRange(Place),
    /// Too wide a signal.
    WidthLimit(Place),
    /// Too many passes of a generate loop.
    GenerateLimit(Place),
    /// A constant expression without a value.
    Const(ConstFault),
    /// A bit that nothing drives.
    Undriven(Seq<u8>, Place),
    /// A bit that is driven twice.
    TwiceDriven(Seq<u8>, Place),
    /// Too large a design.
    Heavy(Place),
    /// What this program doesn't elaborate yet.
    NotBuilt(Place),
}

impl From<AllocError> for ElabFault {
    ghost use Rattle.std.specs.Prelude.{◌≡◌};
    ghost use Rattle.elab_names.specs.declared.fault.ElabFault.TheVariants.{Memory};

    ghost from_gives = { λ _ fault. fault ≡ Memory };

    fn from(_: AllocError) -> Self {
        ElabFault::Memory
    }
}

impl<T: Drop> From<AllocFailed<T>> for ElabFault {
    ghost use Rattle.std.specs.Prelude.{◌≡◌};
    ghost use Rattle.elab_names.specs.declared.fault.ElabFault.TheVariants.{Memory};

    ghost from_gives = { λ _ fault. fault ≡ Memory };

    fn from(_: AllocFailed<T>) -> Self {
        ElabFault::Memory
    }
}

impl From<ConstFault> for ElabFault {
    ghost use Rattle.std.specs.Prelude.{◌≡◌};
    ghost use Rattle.elab_names.specs.Answers.{fault_of};

    ghost from_gives = { λ cause fault. fault ≡ fault_of cause };

    #[tactic(auto, unfolding(crate::specs::Answers::fault_of))]
    fn from(cause: ConstFault) -> Self {
        match cause {
            ConstFault::Memory => ElabFault::Memory,
            fault => ElabFault::Const(fault),
        }
    }
}
