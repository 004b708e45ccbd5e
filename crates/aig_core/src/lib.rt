//! And-inverter graphs (Kuehlmann and Krohm 1997), numbered as in AIGER (Biere 2006), and the graph of a netlist
//! without loops, in which equal ANDs are one; and its texts in both forms of AIGER (version 1.9; Biere, Heljanko and
//! Wieringa 2011).
//!
//! It stands on `netlist` and `cover_logic`, and on `cyc_io` for the sink. The layers above use that `build` gives exactly
//! the definition's graph (`specs/Building.antt`), that its edges have the values of the netlist's fixpoint at every
//! Boolean vector, and that `write_ascii` and `write_binary` append exactly the text of the definition
//! (`specs/Text.antt`), or a prefix of it where a write failed. The text of either form reads back by the rules of the
//! format (`laws`).
#![tactic(auto)]

mod aig;
mod binary;
mod building;
mod covers;
mod depth;
mod edge;
mod fault;
mod graph_lines;
pub mod laws;
mod lines;
mod symbols;
mod text;

pub use aig::{Aig, MAX_ANDS, MAX_COLUMNS};
pub use building::{Built, build};
pub use edge::{And, Edge};
pub use fault::AigFault;
pub use text::{write_ascii, write_binary};
