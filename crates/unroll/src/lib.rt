//! The unrolled netlist: for each sweep that a loop needs a copy of the loop's gates, and the gates themselves
//! with their cut wires read from the last copy (Malik 1994; Edwards 2003).
//!
//! It stands on `loops`, for a netlist with its blocks and cut wires, and for the laws of sweeps. The layers above hand on
//! such a netlist and how many sweeps its loops need as one value, `CountedLoops`, and use that `unroll_counted` gives the
//! unrolled netlist, that it has no loop, and that its fixpoint tells at least what the netlist's does (`laws`).
#![tactic(auto)]

mod assembly;
mod copies;
mod counted_loops;
mod fault;
mod gates;
pub mod laws;
mod names;
mod pins;
mod plan;
mod sizes;
mod unrolling;

pub use counted_loops::CountedLoops;
pub use fault::UnrollFault;
pub use names::{copy_name, mark};
pub use sizes::unrolled_size;
pub use unrolling::{unroll, unroll_counted};
