//! The rewritten netlist of an accepted one: without loops, and the same to all that is seen from outside (Malik 1994;
//! Edwards 2003).
//!
//! It stands on `unroll`, for the netlist that is made, on `loop_simulation`, for the sweeps that loops need on care, on
//! `schedules`, for sameness over all runs, on `blif_write`, for reading back, on `aig_core`, for its graph, and on
//! `case_search`, for the netlist split by cases. The layer above uses that `rewrite`, `rewrite_by_cases` and `graph` give
//! all that a user has of the netlist (`IsRewriting`, `IsLoopFreeForm`) and of the graph (`IsGraphIn`), and that
//! `rewritten_gates` counts its gates.
#![tactic(auto)]

mod by_cases;
mod covers;
mod graphs;
pub mod laws;
mod rewriting;
mod sizes;

pub use aig_core::{AigFault, Built};
pub use by_cases::rewrite_by_cases;
pub use graphs::graph;
pub use rewriting::rewrite;
pub use sizes::rewritten_gates;
pub use unroll::UnrollFault;
