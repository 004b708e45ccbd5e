//! The tool over any shelf and any sinks: from words and files to a status and two texts.
//!
//! It stands on `plain_commands`, and on what decides, compares and rewrites. The program uses `run`, whose clause `runs`
//! says that the call gives an answer of its words (`specs/Answer.antt`) at what the shelf gave, met the limit of
//! nodes, wants memory, or that a read or a write failed.
#![tactic(auto)]

mod assumed;
mod compared;
mod decision;
mod explained;
mod problem;
mod ring;
mod split;
mod top;

pub use plain_commands::status;
pub use report::{NO_MEMORY_TEXT, USAGE_TEXT};
pub use top::run;
