//! Schedules of a netlist whose gates are computed one at a time, from values that wires have or had: histories,
//! events, rounds, fairness with a window of older reads, runs of ticks, settling and sameness. Its definitions are a
//! chapter on asynchronous circuits (`specs/Moments`, `Fairness`, `Runs`, `Settling`), and a last part on what accepted
//! netlists do in all their runs (`Accepted`, `Harmless`): each tick has a care vector, observed wires settle at the
//! fixpoint, and nothing seen from outside depends on the schedules.
//!
//! It stands on `netlist`, for the least fixpoint and its laws, on `care_sets`, for the vectors that count, and on
//! `refusals`, for acceptance. The layers above use the definitions, and the laws (`laws`).
#![tactic(auto)]

mod event;
pub mod laws;

pub use event::Event;
