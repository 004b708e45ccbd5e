//! Formulas in clauses: literals, clauses one after another in one list, and models.
//!
//! A formula grows: new variables and further clauses, of which each whole one keeps it a formula. Its variable 0 is true in
//! each model, so that a literal which is known in any case needs no variable of its own.
//!
//! The layers above build formulas of what they ask about, and ask a solver for their models.
#![tactic(auto)]

mod formula;

pub use formula::{Formula, MAX_VARIABLES, negation, value_of};
