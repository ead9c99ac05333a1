//! Laws of bodies without loops. They compute nothing.

ghost use Rattle.proc_loops.specs.Laws.{CountsTurns, HoldsNoLoop, KeepsOthers};

/// What is unrolled holds no loop.
pub fn no_loop_is_left()
    ensures { HoldsNoLoop }
{}

/// Fewer than 65,536 turns were made, also where the unrolling is cut off.
pub fn turns_are_counted()
    ensures { CountsTurns }
{}

/// A body without loops stays as it is.
pub fn other_bodies_stay()
    ensures { KeepsOthers }
{}
