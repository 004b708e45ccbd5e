//! Acceptance of netlists on a care set, where all gates are observed or what is seen from outside, and refusals:
//! which part of acceptance fails first, with its least witness, and whether a refusal shows what it says.
//!
//! It stands on `care_sets` for the vectors that count, and on `ternary_run` for the fixpoint of one vector.
//! The layer above uses that `shows` is `Proves`, and the laws of the refusal that is defined (`laws`).
#![tactic(auto)]

pub mod laws;
mod observe;
mod refusal;
mod showing;

pub use observe::Observe;
pub use refusal::Refusal;
pub use showing::{is_care_vector, shows};
