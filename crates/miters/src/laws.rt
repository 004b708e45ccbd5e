//! The law of runs of netlists that agree, the contract of a function that does nothing.

ghost use Rattle.miters.specs.Runs.{EqualRunAlike};

/// Two netlists that agree run alike.
pub fn equal_netlists_run_alike()
    ensures { EqualRunAlike }
{}
