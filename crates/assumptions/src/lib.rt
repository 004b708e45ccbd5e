//! The weakest assumption under which a netlist is harmless: rows of vectors that leave an observed wire undetermined are
//! excluded from a care set, one after another, each out of the explanation of a refusal.
//!
//! It stands on `verdict` for the judgements, on `explanations` for the rows, and on `care_rows` for the models that exclude
//! them. The layer above uses that `weakest_assumption` answers as its definition says (`specs/Assumptions.antt`), and that
//! a weakest assumption excludes just the vectors that leave an observed wire undetermined (`laws`).
#![tactic(auto)]

mod assumption;
mod implied;
pub mod laws;
mod rows;
mod search;
mod strengthening;

pub use assumption::Assumption;
pub use search::{MAX_ROWS, weakest_assumption};
