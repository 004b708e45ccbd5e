//! A ring arbiter of any number of cells, as the texts of a netlist and of a care file.
//!
//! It stands on `cyc_base`, for the bounds on cells. The tool uses that `ring` gives the two texts that
//! `specs/Ring.antt` lists line by line, exactly where the number of cells is within the bounds.
//!
//! On circuits with loops that settle all the same: S. Malik, "Analysis of cyclic combinational circuits", IEEE
//! Transactions on CAD 13 (1994).
#![tactic(auto)]

mod fault;
mod lines;
mod texts;

pub use fault::RingFault;
pub use texts::ring;
