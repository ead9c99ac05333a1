//! Laws of expressions in a scope. They compute nothing.

ghost use Rattle.elab_names.specs.Laws.{KeepsWorth};

/// What is put in is worth, without names, what the expression is worth where names stand for the constants of the scope.
pub fn constants_keep_their_worth()
    ensures { KeepsWorth }
{}
