//! Questions to a solver about a formula: whether there is a model under assumptions, the least vector of one in some
//! columns, the first of some literals that can be true (by asking column by column, and by bisection), which of them can
//! be, and which can't.
//!
//! It stands on `sat`, for the answers, and on `clause_formulas`, for what formulas and their models are. The layer above
//! uses that what is answered is the first vector that passes a test, where the formula asks for the test (`Asks`).
#![tactic(auto)]

mod each;
mod first;
pub mod laws;
mod least;
mod names;
mod never;
mod possible;
mod query;

pub use first::First;
pub use least::Found;
pub use query::{Query, QueryFault, Reply};
