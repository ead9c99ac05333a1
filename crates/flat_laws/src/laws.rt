//! The laws.
ghost use Rattle.flat_laws.specs.Laws.{AreSmall, IsOneFlat};

/// Modules give at most one flat design below a top.
pub fn one_flat_design()
    ensures { IsOneFlat }
{}

/// What a flat design says in the first form has fewer than 2^20 names and steps together.
pub fn flat_designs_are_small()
    ensures { AreSmall }
{}
