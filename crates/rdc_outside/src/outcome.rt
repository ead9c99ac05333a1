//! How a run of the program ends.

/// The answer of a run, in the order of its numbers.
#[derive(Clone, Copy, Debug, PartialEq, Eq)]
pub enum Status {
    /// Nothing was found: what was asked holds.
    Clean,
    /// A flop may be disturbed.
    Hazard,
    /// The words ask for nothing.
    Usage,
    /// All that was found is waived.
    Waived,
    /// The source is faulty.
    Source,
    /// The constraints are faulty.
    Constraints,
    /// A file is missing.
    Absent,
    /// A file can't be read.
    Read,
    /// A file or the report can't be written.
    Write,
    /// The budget was spent before an answer was found.
    Spent,
    /// There was no memory.
    Memory,
    /// The certificate doesn't pass.
    Certificate,
    /// A reset can never be in progress.
    Idle,
    /// An abstract is none, or doesn't fit.
    Abstract,
    /// A run can't be replayed.
    Replay,
    /// The input is of a form that isn't built yet.
    NotYet,
}

impl Status {
    ghost use Rattle.std.specs.Prelude.{◌≡◌};
    ghost use Rattle.rdc_outside.specs.Status.{number_of};

    /// The number with which the program exits.
    pub fn number(self) -> u8
        ensures { result ≡ number_of self }
    {
        self as u8
    }
}
