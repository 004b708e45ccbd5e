//! Feedback cuts: cut wires that open each loop of a netlist, no more than are needed, gate by gate in their order
//! (Malik 1994).
//!
//! It stands on `loops`, for the netlist's blocks and what cut wires are. The layers above use that `find_cut` gives the
//! one choice of cut wires that `IsCutOf` says, and `NetlistLoops` a netlist with its loops; it keeps levels of the gates
//! that are none, so that most searches are short, and landmarks, so that most others are spared.
#![tactic(auto)]

mod cuts;
mod kept;
mod kept_gates;
mod landmarks;
mod levels;
mod netlist_loops;
mod search;

pub use cuts::find_cut;
pub use netlist_loops::NetlistLoops;
