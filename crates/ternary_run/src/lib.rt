//! Ternary simulation of one vector: the least fixpoint by a work list (Malik 1994; Shiple, Berry and
//! Touati 1996), and what the outputs show and the latches load there.
//!
//! It stands on `netlist`, for the fixpoint and its laws. The layers above use that `settle` gives the
//! values of all signals at the fixpoint, and `tick` also the outputs and the latches' next values.
#![tactic(auto)]

mod fanout;
mod settling;
mod ticks;
mod vectors;

pub use fanout::{Fanout, Read};
pub use settling::settle;
pub use ticks::{TickValues, tick};
pub use vectors::{settle_at, trits_of};
