//! Whether two netlists agree, signal for signal of the same name: both are accepted on their care set, and on each care
//! vector their outputs and what their latches load are equal.
//!
//! It stands on `miters`, which joins both netlists and defines and tells what is found of them, on `verdict`, which decides
//! both and their miter, on `inner_pairs`, which tells which wires of both are never apart, on `clause_decision`, which is
//! asked for the miter's last gate alone, and on `fixpoint`, which solves both at once by decision diagrams where clauses
//! give up. The layer above uses that `tell_equality` tells exactly what is found, with the least vector of a difference,
//! and what that shows; and what its node limit rests on.
#![tactic(auto)]

mod accepted;
mod alike;
mod apart;
mod caring;
mod comparing;
mod comparison;
mod fault;
mod least;
mod lesser;
mod parting;
mod telling;
mod whole;

pub use comparing::{compare, compare_by_name};
pub use fault::EqualFault;
pub use telling::tell_equality;
pub use whole::are_never_apart;
