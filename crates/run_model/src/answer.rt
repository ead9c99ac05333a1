//! What became of an event.

ghost use Rattle.std.specs.Prelude.{◌≡◌, ◌≢◌};
ghost use Rattle.run_model.specs.Passes.{answer_of};

/// What became of an event.
#[derive(Clone, Copy, Debug, PartialEq, Eq)]
pub enum Stepped {
    /// It came, and disturbed nothing.
    Done,
    /// It came, and disturbed flops, of which this is the one of the least source number.
    Disturbed(u32),
    /// Its need isn't met.
    NotPossible,
}

/// The answer by the least disturbed flop.
pub(crate) fn answer_by(least: Option<u32>) -> Stepped
    ensures value { result ≡ answer_of least }
    ensures comes { result ≢ Stepped.NotPossible }
{
    match least {
        None => Stepped::Done,
        Some(n) => Stepped::Disturbed(n),
    }
}
