//! Commands that decide nothing, and what all commands share: plans, files, outcomes, and how the end of a call is told.
//!
//! It stands on what reads files, settles, plays and writes, and on no decision. The layers above use the plan of a
//! command (`specs/Plans.antt`), what comes of reading its files (`read_netlist` and kin, `GoesOn` and `StopsIn`), and that a
//! command of this crate goes along its plan to its outcome (`comes`).
#![tactic(auto)]

mod outcome;
mod plays;
mod printing;
mod reading;
mod replays;
mod sim_lines;
pub mod status;
mod storms;
mod telling;
mod texts;

pub use outcome::{Outcome, Stop, or_stop};
pub use printing::{flatten_file, print_loops, simulate_file};
pub use reading::{read_care, read_netlist, stop_at};
pub use replays::{Replay, replay_files};
pub use storms::tell_storm;
pub use telling::tell_end;
pub use texts::{
    accepted_line, number_of_loops, on_err, on_out, put_accepted_line, tell_aiger, tell_declined,
    tell_help, tell_limit, tell_netlist, tell_refused, tell_too_large, tell_topic, tell_usage,
    tell_version,
};
