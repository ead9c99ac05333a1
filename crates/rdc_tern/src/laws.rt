//! Laws of the gates, for whoever raises signals to X or simplifies logic. They compute nothing.

ghost use Rattle.rdc_tern.specs.Algebra.{Algebra, SelectsEquals};
ghost use Rattle.rdc_tern.specs.Monotone.{JoinIsLeast, Monotone};

/// Inputs that are raised to X leave each output as it was, or raise it to X.
pub fn operations_are_monotone()
    ensures { Monotone }
{}

/// `join` is the least value below which both lie.
pub fn join_is_least()
    ensures { JoinIsLeast }
{}

/// Commutativity, associativity, idempotence, double negation, De Morgan and constants hold; three laws of 0 and 1 don't.
pub fn kleene_algebra()
    ensures { Algebra }
{}

/// A selection between equals is theirs where it is settled, and X between ones where it isn't.
pub fn selection_of_equals()
    ensures { SelectsEquals }
{}
