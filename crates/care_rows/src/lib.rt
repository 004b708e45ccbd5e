//! Rows of wires with values, and the model that keeps an assumption and excludes rows.
//!
//! It stands on `loops`, for the gates upstream of others, and on `care_sets`. The layer above uses that `steady_signals`
//! tells which signals no loop takes part in, and that `restricted_model` makes a model which holds just where the old
//! assumption does and no row has all its values.
#![tactic(auto)]

mod assumed;
mod columns;
mod fault;
mod keeping;
mod kept;
mod model;
mod rows;
mod sizes;
mod steady;
mod telling;

pub use fault::RestrictFault;
pub use model::restricted_model;
pub use rows::{Row, WireValue};
pub use steady::steady_signals;
