//! The printed texts: faults of files, verdicts, loops, ticks, and what a call tells where there is no result. Each
//! call appends its text to a sink and takes no memory.
//!
//! It stands on `cyc_io` for sinks, and on `refusals` and `loops` for what is told. The tool uses that each call
//! appends exactly its text, whole or a prefix of it where a write failed; `specs/` has a file for each kind of text.
#![tactic(auto)]

mod fault;
mod fault_code;
mod help;
mod loop_text;
mod message;
mod tick;
mod verdict;

pub use fault::{Tail, put_fault, put_file_fault};
pub use fault_code::FaultCode;
pub use help::{put_help, put_topic, put_version};
pub use loop_text::{put_gate_names, put_loop, put_loops};
pub use message::{
    NO_MEMORY_TEXT, USAGE_TEXT, put_limit, put_read_failed, put_too_large, put_too_many_rows,
};
pub use tick::{put_played_tick, put_tick};
pub use verdict::{put_accepted, put_column, put_refusal, put_ring, put_vector};
