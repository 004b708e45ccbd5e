//! Plays of a netlist whose gates are computed one at a time: the moments that events, rounds and ticks make, read back
//! at any age.
//!
//! It stands on `schedules`, whose histories and fair schedules it plays, and on `simulation`, for the fixpoint at
//! which a tick is settled.
#![tactic(auto)]

mod change;
mod change_log;
mod entries;
mod entry;
mod events;
mod fault;
pub mod laws;
mod opening;
mod plan;
mod play;
mod reading;
mod scheduled_run;
mod timeline;
mod whole;

pub use change::Change;
pub use change_log::ChangeLog;
pub use events::Events;
pub use fault::{EventFault, PlayFault, Unfair};
pub use plan::{PlannedEvent, RoundPlan, Schedule, TickEnd, TickPlan};
pub use play::Play;
pub use scheduled_run::ScheduledRun;
pub use schedules::Event;
pub use whole::{play_run, play_whole};
