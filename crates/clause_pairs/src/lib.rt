//! Pairs of wires that are never apart on care, or in a cube of columns, and which cubes no care vector is in, by clauses
//! (Kuehlmann and Krohm 1997).
//!
//! It stands on `clause_decision`, for the clauses of a care set and of gates, and on `clause_queries`, which asks a solver
//! about them. The layers above use that what is told holds at each care vector, or that nothing is told.
#![tactic(auto)]

mod apart;
mod cubes;
mod pairs;

pub use apart::{are_never_apart, are_never_apart_in};
pub use cubes::{CareQuestions, Cube, leave_none_out};
pub use pairs::{Budget, Fixed, Hint, PairSearch};
