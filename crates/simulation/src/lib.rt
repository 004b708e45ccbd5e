//! Ternary simulation of a stream of vectors: the least fixpoint of each (Malik 1994; Shiple, Berry and
//! Touati 1996), by work on what changes from one vector to the next.
//!
//! It stands on `loops`, for the blocks in order, and on `ternary_run`, for the readers of signals and the
//! values of a tick. The layer above uses that `Simulator::tick` gives what `ternary_run::tick` gives.
#![tactic(auto)]

mod plan;
mod readers;
mod settling;
mod simulator;
mod wires;

pub use simulator::Simulator;
