//! A netlist split by cases: where columns have values, the gates of its loops are copied with these values put in,
//! so that loops vanish, and the columns select among the copies (Boole 1854; Shannon 1949).
//!
//! It stands on `ternary_run`, for what a case determines, on `loops`, for the gates of loops, and on `unroll`, for
//! the names of copies. The layer above picks the cases, for which it uses `near_columns` and `left_in_loops`, and uses
//! that `split` makes a netlist which tells, at each vector of one case, at least what the netlist does of outputs and
//! latches.
#![tactic(auto)]

mod added;
mod case_tables;
mod cases;
mod choosing;
mod cofactors;
mod cubes;
mod fault;
mod heads;
mod left;
mod marking;
mod nearness;
mod operands;
mod ordering;
mod pins;
mod splitting;
mod tables;

pub use cases::{Case, ColumnValue};
pub use fault::SplitFault;
pub use left::{LeftOver, left_in_loops};
pub use marking::copied_marks;
pub use nearness::near_columns;
pub use splitting::{marked_gates, split};
