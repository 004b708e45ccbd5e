//! Loops decided where they stand: a loop is taken out of its netlist, as a small netlist whose inputs are the wires
//! that its gates read from outside. Where no Boolean values of these leave a gate unknown, the loop is settled
//! whatever drives it, since the least fixpoint of a block is that of the whole, its surroundings fixed.
//!
//! It stands on `fixpoint`, which solves the small netlist on diagrams of its own, on `loops`, and on `loop_simulation`.
//! The layers above use that `settled_loops` marks loops that are settled by themselves, with `settles_alone`, which gives
//! the sweeps of one, and the laws of netlists whose loops are settled.
#![tactic(auto)]

mod alone;
mod excerpt;
pub mod laws;
mod settling;

pub use alone::{LOOP_NODES, block_number, settled_loops};
pub use excerpt::loop_netlist;
pub use settling::settles_alone;
