//! What holds of the grammar of modules.

ghost use Rattle.vlog_parse.specs.Begins.{OneTree};

/// One list of lexemes spells at most one list of modules.
pub fn one_tree()
    ensures { OneTree }
{}
