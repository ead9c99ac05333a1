//! Laws of libraries. They compute nothing.

ghost use Rattle.elab_binds.specs.Laws.{MeansByPlaces};

/// A name means the one module that has it, where no box does, or the first of the boxes that have it, where no module does.
pub fn names_mean_by_places()
    ensures { MeansByPlaces }
{}
