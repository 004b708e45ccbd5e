//! Care sets: which vectors of a netlist count.
//!
//! It stands on `netlist` for the models' netlists and on `ternary_run` for their fixpoints. The layer above
//! uses that `allows` and `state_in` answer as the definitions say (`specs/Care.antt`), that the columns
//! are those that the models' inputs name, and that each model has no latch, one output and no loop.
#![tactic(auto)]

mod binding;
mod care;
mod fault;
pub mod laws;
mod model;

pub use care::{Care, bind};
pub use fault::CareFault;
