//! The node arena: a store of reduced ordered binary decision diagrams (Bryant 1986) with a unique table.
//!
//! It stands on the limits of `cyc_base`. The layer above uses that equal functions have equal nodes
//! (`Store::laws`), that `make` answers the node of its function and keeps all earlier ones, and that `sweep` keeps
//! the functions of the roots.
//! Its specs also count the functions that a Boolean function gives with its first bits fixed.
#![tactic(auto)]

mod fault;
mod laws;
mod node;
mod root;
mod store;
mod sweep;

pub use fault::StoreFault;
pub use laws::nodes_by_values;
pub use node::{Choice, Entry, Node};
pub use root::Root;
pub use store::Store;
