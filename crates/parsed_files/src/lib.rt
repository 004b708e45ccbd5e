//! What the bytes of files mean: the netlist of a netlist file, the care set of a care file, the vectors of a vector file,
//! the schedule of a schedule file; or the first fault of the file, with its code.
//!
//! It stands on the readers `blif_read`, `flatten`, `care_sets` and `sched_text`, and on `report` for the codes. The layer
//! above uses that each call gives what `specs/` says that the bytes mean, or that fault, or wants memory.
#![tactic(auto)]

mod care_files;
mod errors;
mod fault;
pub mod laws;
mod netlist_files;
mod schedule_files;

pub use care_files::care_of;
pub use errors::{play_error, too_long};
pub use fault::{Fault, FaultTail, FileError};
pub use netlist_files::netlist_of;
pub use schedule_files::{schedule_of, vectors_of};
