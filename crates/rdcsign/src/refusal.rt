//! Why no report is written.

ghost use Rattle.std.specs.Prelude.{◌≡◌};
ghost use Rattle.rdcsign.specs.Outcome.{name_of};

use rdc_outside::Seq;

/// The name of a file that can't be loaded.
#[derive(Drop)]
pub enum Name<'a> {
    /// A word of the command line.
    Asked(&'a str),
    /// As the expansion tells it: a word of the command line too, or the name in an `include`.
    Met(Seq<u8>),
}

impl<'a> Name<'a> {
    pub fn bytes(&self) -> &[u8]
        ensures { result.now ≡ name_of self.now }
    {
        match self {
            Name::Asked(name) => name.as_bytes(),
            Name::Met(name) => name.as_slice(),
        }
    }
}

/// A refusal, with what its line names.
#[derive(Drop)]
pub enum Refusal<'a> {
    /// The words ask for nothing.
    Usage,
    /// The file is missing.
    Absent(Name<'a>),
    /// The file can't be read.
    Read(Name<'a>),
    /// The source is faulty: the fault's word, its name and its place.
    Source(Vec<u8>),
    /// The file is not of the form that is built.
    NotYet(&'a str),
    Memory,
}
