//! A law of values, for whoever builds a net. It computes nothing.
ghost use Rattle.std.specs.Prelude.{ℕ, ◌++◌, List};
ghost use Rattle.net_view.specs.View.{Numbered};
ghost use Rattle.net_core.specs.Folds.{HasValue};

/// What is added later changes no value: a node that is worth what a gate is stays so.
pub fn values_stay()
    ensures { (gates more : List Numbered) (n : ℕ) (g : Numbered) → HasValue gates n g → HasValue (gates ++ more) n g }
{}
