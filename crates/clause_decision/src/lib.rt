//! The parts of a decision by clauses: whether an initial state lies outside the invariant, whether there is a care
//! vector, which gate is unknown first and where, which gates are unknown at all, whether a next state leaves the
//! invariant, and how many sweeps a loop needs.
//!
//! It stands on `ternary_clauses`, whose clauses have the least fixpoint of each vector as a model, on `clause_queries`,
//! which asks a solver about them, and on `loop_simulation`, which counts sweeps at one vector. The layers above use that
//! each answer is the one of the definitions of `refusals` and `loops`, or that the solver gave up; and the clauses of a
//! care set, and of it with the gates of a scope.
#![tactic(auto)]

mod care;
mod changing;
mod cones;
mod counting;
mod initial;
mod leaving;
mod models;
mod question;
mod scope;
mod sweeping;
mod unknown;
mod witness;

pub use care::{CareFormula, care_formula, is_possible};
pub use clause_queries::{First, Found};
pub use cones::{Cone, cone_of};
pub use counting::{has_one_known_cut, needs_one_sweep, sweeps_fed_known, sweeps_needed};
pub use initial::least_outside;
pub use leaving::least_leaving;
pub use question::query_of;
pub use scope::Scope;
pub use unknown::{each_unknown, first_unknown, least_unknown};
pub use witness::{Witness, some_unknown};
