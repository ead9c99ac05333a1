//! A law of weights. It computes nothing.

ghost use Rattle.elab_weight.specs.Laws.{EndingsCount};

/// What a loop leaves in its variable weighs as an assignment of that number, of 32 bits to an integer.
pub fn endings_count()
    ensures { EndingsCount }
{}
