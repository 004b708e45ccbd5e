//! The fixpoint of a netlist at all vectors at once: block by block on dual rails, a loop by sweeps from its
//! cut wires until they stand still (Malik 1994; Shiple, Berry and Touati 1996). A netlist without loops is lifted
//! gate by gate.
//!
//! It stands on `dual_rail`, for the exact extension of covers on rails, and on `loops`, for blocks, cut
//! wires and the laws of sweeps. The layers above use that `solve` and `lift_gates` give the fixpoint at every
//! vector, and `sweeps` for each loop the least number of sweeps after which it stands still on a care set;
//! `column_rails` makes the rails of the vectors.
#![tactic(auto)]

mod clearing;
mod columns;
mod counting;
mod keeping;
mod kept;
pub mod laws;
mod layout;
mod lifting;
mod progress;
mod solved;
mod solving;
mod sweeping;
mod wires;

pub use columns::column_rails;
pub use counting::sweeps;
pub use kept::{KeptRails, keep_rails, rails_of};
pub use layout::order;
pub use lifting::lift_gates;
pub use loops::SweepCounts;
pub use solved::{LoopSteps, Solved};
pub use solving::solve;
