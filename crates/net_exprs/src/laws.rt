//! What the gates of expressions are worth: laws of values, for whoever builds with them. They compute nothing.
ghost use Rattle.net_exprs.specs.Laws.{AreWorthWords, KeepShapes};

/// In every list that begins with the gates of an expression, in every ternary state, its nodes are worth its word: alone,
/// in each context, and as on the right of an assignment.
pub fn expressions_are_worth()
    ensures { AreWorthWords }
{}

/// An expression has the width and the sign that it has in the design.
pub fn expressions_keep_shapes()
    ensures { KeepShapes }
{}
