//! Theorems of the event model, over any machine. They compute nothing.

ghost use Rattle.run_model.specs.Statements.{RulesHold, CleanIsSafe, PowersUp, UpIsOne, ProgressBegins, AgreeingIsSafe, ExampleRuns};

/// In an undisturbed run no flop without a reset is X, and none is X while its reset is settled inactive.
pub fn rules_hold()
    ensures { RulesHold }
{}

/// What structure alone shows: the same resets at both ends of every edge, and direct calms, keep a design safe.
pub fn clean_is_safe()
    ensures { CleanIsSafe }
{}

/// The premise of a run can always be met.
pub fn powers_up()
    ensures { PowersUp }
{}

/// The state after a change of resets hangs on no order of the flops.
pub fn up_is_one()
    ensures { UpIsOne }
{}

/// When a reset is in progress.
pub fn progress_begins()
    ensures { ProgressBegins }
{}

/// A theorem on one representation of a design carries over to each that agrees with it.
pub fn agreeing_is_safe()
    ensures { AgreeingIsSafe }
{}

/// Runs, events and disturbances exist: a small design has them.
pub fn example_runs()
    ensures { ExampleRuns }
{}
