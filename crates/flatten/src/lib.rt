//! Flattening: one netlist from a hierarchy of models.
//!
//! It stands on `blif_read` for the models and on `netlist` for the netlist. The layer above uses that
//! `flatten` gives the flat netlist by definition (`specs/Flat.antt`), or its first fault, and `flatten_owned` too.
#![tactic(auto)]

mod alone;
mod bind;
mod count;
mod fault;
mod flattening;
mod hierarchy;
pub mod laws;
mod library;
mod link;
mod mark;
mod remaining;
mod scope;
mod walk;

pub use fault::FlatFault;
pub use flattening::{flatten, flatten_owned};
