//! The laws of schedules, and that a recorded schedule is refused exactly where it isn't fair; each the contract of a
//! function that does nothing.

ghost use Rattle.delay_core.specs.Laws.{FaultsAreUnfairness};

pub use schedules::laws::{fair_schedules_settle, runs_exist};

/// A recorded schedule has no fault exactly where each tick of the run that it plays is fair with its window.
pub fn faults_are_unfairness()
    ensures { FaultsAreUnfairness }
{}
