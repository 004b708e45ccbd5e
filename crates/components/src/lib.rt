//! The strongly connected components of a directed graph (Tarjan 1972), by the path of groups of Purdom
//! (1970) and Munro (1971) that Gabow (2000) describes, without recursion and in linear time and memory.
//!
//! It stands on `cyc_base` for lists. The layers above use that two nodes have one component exactly where
//! each reaches the other, and that no edge leads to a later component (`AreComponentsOf`).
#![tactic(auto)]

mod components;
mod graph;
mod order;
mod search;

pub use components::Components;
pub use graph::Graph;
pub use order::topological_order;
