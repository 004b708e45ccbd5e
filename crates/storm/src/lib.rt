//! Storms: schedules on which the gates that the ternary fixpoint leaves unknown change in every round: what the
//! fixpoint does not determine need not come to rest, even where pins read values of at most one round before.
//!
//! It stands on `ternary_run`, for the fixpoint, and on `delay_core`, for recorded schedules. The tool uses that
//! `plan` gives the unknown gates and the values of their pins, and that the schedule of `schedule` is fair with the
//! window 1 while each unknown gate falls and rises in each round (`IsStorm`).
#![tactic(auto)]

mod event;
mod fault;
pub mod laws;
mod least;
mod planning;
mod round;
mod scheduling;

pub use fault::StormFault;
pub use planning::{StormPlan, plan};
pub use scheduling::schedule;
