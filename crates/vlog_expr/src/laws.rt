//! What holds of the grammar of expressions.

ghost use Rattle.vlog_expr.specs.Begins.{OneExpression};

/// One list of lexemes spells at most one expression.
pub fn one_expression()
    ensures { OneExpression }
{}
