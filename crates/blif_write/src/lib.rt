//! The BLIF text of a netlist.
//!
//! It stands on `netlist` for the netlist and on `cyc_io` for the sink; its law stands on `blif_read` and
//! `flatten`. The tool uses that `write` appends exactly the netlist's text (`specs/Written.antt`), or a prefix
//! of it where a write failed, and that the text reads back as the netlist (`specs/Laws.antt`); `write_models`
//! does the same of some netlists, one after another.
#![tactic(auto)]

mod gates;
mod latches;
pub mod laws;
mod names;
mod put;
mod text;

pub use text::{write, write_models};
