//! Loops, refusals, and why a wire is undetermined, as graphs in the DOT language of Graphviz.
//!
//! It stands on `loops`, for a netlist with its loops and their order, and for marks of gates, on `refusals`, and on
//! `explanations` and `ternary_run`, for what an explanation has and which gates are unknown.
//! The layer above uses that each call appends the text of its definition.
#![tactic(auto)]

mod cut_graph;
mod drawing;
mod explanation_graph;
mod loop_graph;
mod node;
mod refusal_graph;

pub use cut_graph::put_cut_cluster;
pub use explanation_graph::tell_explanation_graph;
pub use loop_graph::{put_labelled_cluster, put_loops_graph};
pub use node::open_graph;
pub use refusal_graph::put_refusal_graph;
