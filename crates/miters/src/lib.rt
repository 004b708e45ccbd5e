//! Two netlists as one: the names that match, the joined netlist with the gates of both, their miter, which tells of a
//! vector whether they differ, the columns that steer its loops, what is told of a comparison as a line, and what equal
//! netlists show in their runs: over equal inputs, from equal latches, they have equal outputs and latches at each
//! tick, by name, whatever their fair schedules.
//!
//! All that asks nothing is here, so that it is proved beside all that decides. It stands on `unroll` for the names of copied
//! gates, on `schedules`, for what accepted netlists do in their runs, and on `report`, for the texts of refusals and of
//! vectors. `inner_pairs` asks which pairs of the joined netlist are never apart, and `equal` decides what is defined here.
#![tactic(auto)]

mod answer;
mod joining;
pub mod laws;
mod matching;
mod miter;
mod pairs;
mod placing;
mod rebinding;
mod standing;
mod steering;
mod telling;
mod text;

pub use answer::Answer;
pub use joining::{joined_netlist, joined_pairs};
pub use matching::first_unmatched;
pub use miter::miter_of;
pub use pairs::find_columns;
pub use placing::{at_difference, value_of};
pub use rebinding::rebind;
pub use standing::stands_in_first;
pub use steering::steering_columns;
pub use telling::{Told, tell_answer};
