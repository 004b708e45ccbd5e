//! What is told of why a netlist is accepted or refused. Of an accepted netlist's loops: of each its gates and its cut wires,
//! the sweeps that it needs on care, and the columns that it speaks of, those that are read by a gate of it or by what drives
//! it; in lines or as a graph. Of a gate that is undetermined: the cycle, the way from it, and what holds both open, in lines.
//!
//! It stands on `loops`, for what lies upstream of a gate, on `loop_simulation`, for the sweeps that a loop needs on care,
//! on `explanations`, for why a gate is undetermined, on `report`, for the lines of `loops` and of refusals, and on
//! `dot_text`, for its clusters. The layer above uses that `tell_loops`, `tell_loops_graph` and `put_explained` append the
//! text of their definitions.
#![tactic(auto)]

mod columns;
mod explanation;
mod graph;
mod lines;

pub use explanation::put_explained;
pub use graph::tell_loops_graph;
pub use lines::tell_loops;
