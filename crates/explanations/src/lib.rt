//! Why a wire is undetermined: a cycle of unknown gates that leads to it along pins that matter, and what holds the cycle
//! open: wires beside it, and the values of a vector whatever the other columns and gates are.
//!
//! It stands on `ternary_run` for the fixpoint of a vector, and on `simulation` for those of vectors that differ in few
//! columns. The cycle has the fewest gates, by searches in breadth (Itai and Rodeh 1978). The layer above uses that an
//! explanation is one (`Explains`), and that gates which some values hold open are unknown at each vector that has these
//! values (`laws`).
#![tactic(auto)]

mod cycles;
mod explanation;
mod graph;
mod held;
pub mod laws;
mod matters;
mod needs;
mod pins;
mod search;
mod shortest;
mod sides;

pub use explanation::{Explanation, explain};
pub use pins::Pin;
