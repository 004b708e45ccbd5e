//! The words that every crate of `cyc` speaks of: the three values and their order, signals, names,
//! runs of `~` that are longer than each in some names, lists that contracts see as lists, and the limits of the tool.
//!
//! It stands on std alone. The crates above use that the order of values is a partial order with X at
//! the bottom (`laws`), that a name is its bytes, and how long a name's longest run of `~` is.
#![tactic(auto)]

mod items;
pub mod laws;
mod limits;
mod name;
mod sig;
mod tildes;
mod trit;

pub use items::{Bits, Items, Trits};
pub use limits::{
    DEFAULT_NODES, MAX_DEPTH, MAX_FILE_BYTES, MAX_FLAT_ITEMS, MAX_NODES, MAX_PINS,
    MAX_REWRITTEN_ITEMS, MAX_RING_CELLS, MIN_NODES, MIN_RING_CELLS,
};
pub use name::Name;
pub use sig::Sig;
pub use tildes::{longest_run, mark_longer_than};
pub use trit::Trit;
