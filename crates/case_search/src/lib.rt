//! Cases by which the loops of a netlist vanish, and the netlist split by them, region by region.
//!
//! It stands on `case_split`, for the netlist split by given cases, and on `clause_pairs`, for what the care set rules
//! out: cases are searched for, and split by only where the solver has shown that each care vector is in just one of them.
//! It needs no verdict, so it is proved beside `verdict`. The layer above uses that `split_netlist` gives a netlist which
//! tells at each care vector at least what the given one does (`IsSplitOf`).
#![tactic(auto)]

mod asking;
mod cases_shown;
mod cones;
mod picking;
mod reducing;
mod regions;
mod splitting;

pub use splitting::split_netlist;
