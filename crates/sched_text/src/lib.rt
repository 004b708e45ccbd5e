//! The texts of vectors and of recorded schedules.
//!
//! It stands on `blif_text` for the lines, on `netlist` for the gates' names, on `delay_core` for the type of a
//! schedule and on `cyc_io` for sinks. The tool uses that each reader gives what the lines say by definition, or the
//! first fault of the text, that what it gives fits the netlist, and that a schedule's text is appended exactly and
//! reads back.
#![tactic(auto)]

mod bits;
mod draft;
mod events;
mod fault;
mod kind;
pub mod laws;
mod line;
mod number;
mod pieces;
mod place;
mod put;
mod statement;
mod text;
mod vectors;
mod written;

pub use fault::SchedFault;
pub use text::read_schedule;
pub use vectors::read_vectors;
pub use written::put_schedule;
