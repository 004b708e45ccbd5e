//! Operations on the functions that nodes of decision diagrams stand for (Bryant 1986, "apply").
//!
//! It stands on the store of `bdd_store`. The layer above uses that each operation answers the node of its
//! function, leaves every earlier node its function, after a refusal too, and adds at most as many nodes as
//! the function has subfunctions.
#![tactic(auto)]

mod apply;
mod computed;
mod diagrams;
mod least;
mod least_by;
mod operands;
mod slots;
mod terminal;

pub use diagrams::Diagrams;
