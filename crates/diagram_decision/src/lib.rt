//! The decision of a netlist on a care set by diagrams alone, for all vectors at once (Malik 1994; Shiple, Berry and
//! Touati 1996): sets of care vectors, netlists solved on them, the refusal of the least one, and the sweeps of loops.
//!
//! It stands on `fixpoint` and the diagrams below it, and on the definitions of `refusals`. The layers above use that
//! `judge_on` and `count_from_columns` answer as the definitions say, with the nodes that they add, and a netlist that is
//! solved beside a set (`solve_beside`).
#![tactic(auto)]

mod beginning;
mod care;
mod counting;
mod diagrams;
mod fitting;
mod gate_verdict;
mod initial;
mod judgement;
pub mod laws;
mod next;
mod observing;
mod question;
mod refusing;
mod sets;
mod solving;

pub use care::{assume_on, invariant_on};
pub use counting::{count_from_columns, counts_by_diagrams};
pub use diagrams::{judge_by_diagrams, judge_on};
pub use fitting::{fit_all, limit_of};
pub use judgement::Judgement;
pub use next::leaves_at;
pub use observing::observed_gates;
pub use question::Question;
pub use sets::least_of;
pub use solving::{Fixpoint, solve_beside};
