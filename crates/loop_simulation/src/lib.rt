//! How many sweeps a loop needs at one vector, by ternary simulation of its gates, and care vectors near one at which it
//! needs more; cut wires that are known at some care vector. What sweeps loops need on a care set is defined here too
//! (`specs/Sweeping`), for all who count them.
//!
//! It stands on `loops`, for blocks, cut wires and the laws of sweeps, and on `ternary_run`, for the fixpoint of a vector.
//! The layers above use that `sweeps_at` counts the sweeps of the definition, and that care vectors need as many as `climb`
//! says. No clauses are asked, and no diagrams.
#![tactic(auto)]

mod climbing;
mod known;
pub mod laws;
mod looped_block;
mod readers;
mod simulating;
mod upstream;

pub use climbing::climb;
pub use known::known_cut_wires;
pub use looped_block::LoopedBlock;
pub use simulating::{sweeps_at, sweeps_in};
