//! Netlists: latches and gates over numbered signals, and the least fixpoint of their ternary simulation
//! (Malik 1994; Shiple, Berry and Touati 1996).
//!
//! It stands on `cover_logic`, for the value of a gate. The layers above use that the parts of a netlist
//! meet all conditions of `Netlist::new` (`IsNetlist`), and the laws of the fixpoint (`laws`).
#![tactic(auto)]

mod checks;
mod copying;
mod keys;
pub mod laws;
mod named;
mod names;
mod netlist;
mod order;
mod pair;
mod parts;

pub use copying::{
    copy_clock, copy_gate, copy_gates, copy_inputs, copy_netlist, netlist_of, parts_with,
};
pub use keys::{gate_key, mixed};
pub use netlist::Netlist;
pub use pair::Pair;
pub use parts::{Clock, Edge, Gate, Init, Latch, Parts, PartsFault};
