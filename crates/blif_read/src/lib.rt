//! The models of a BLIF text (the Berkeley BLIF manual, in this project's profile).
//!
//! It stands on `blif_text` for the lines, on `cover_logic` for covers and on `netlist` for clocks and
//! inits. The layer above uses that `read` gives the models that the text has by definition, or its first
//! fault, and that these models can be flattened.
#![tactic(auto)]

mod fault;
mod gates;
mod inside;
mod kind;
mod latches;
pub mod laws;
mod models;
mod open_gate;
mod open_model;
mod parts;
mod place;
mod reader;
mod recent_covers;
mod rows;
mod statement;
mod subckts;
mod text;
mod words;

pub use fault::BlifFault;
pub use models::{BlifModel, GateLine, Item, LatchLine, Models, PartLine};
pub use text::read;
