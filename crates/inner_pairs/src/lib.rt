//! Pairs of wires of the joined netlist of two, asked of clauses: with the help of inner pairs that simulation doesn't tell
//! apart, by cases of columns, and column by column for the least vector on which some are apart.
//!
//! It stands on `miters`, for the joined netlist, and on `clause_pairs`, for pairs of wires that are never apart where some
//! columns are fixed. The layer above uses that what is told holds at each care vector, or that nothing is told.
#![tactic(auto)]

mod cases;
mod descent;
mod hints;
mod prints;
mod scopes;
mod words;

pub use cases::{BUDGET, JoinedPairs, PairsTold};
pub use scopes::whole_scope;
