//! Loops of a netlist: its blocks, which are its strongly connected components, what cut wires of them are, and sweeps
//! of a loop from its cut wires (Malik 1994; Shiple, Berry and Touati 1996).
//!
//! It stands on `netlist`, for walks and the fixpoint. The layers above hand on a netlist with its blocks and its cut
//! wires as one value, a `LoopedNetlist`: it tells which gates are in one loop, lists the loops in order (`LoopList`),
//! and orders the gates of a loop for a sweep; `upstream_of` marks what lies upstream of gates. The laws of sweeps are in
//! `laws`.
#![tactic(auto)]

mod blocks;
mod cones;
mod gate_list;
mod grouped_netlist;
pub mod laws;
mod listing;
mod loop_list;
mod looped_netlist;
mod orders;
mod structure;

pub use blocks::find_blocks;
pub use cones::{mark_all, upstream_of};
pub use gate_list::{GateList, empty_lists};
pub use grouped_netlist::GroupedNetlist;
pub use loop_list::{ListedLoop, LoopList};
pub use looped_netlist::{LoopedNetlist, gates_at, source_in_loop};
pub use structure::{Block, Blocks, Cut, SweepCounts};
