//! Three values as two functions, surely 1 and surely 0 (dual rail, as in Shiple, Berry and Touati 1996).
//!
//! It stands on the diagrams of `bdd_ops` and the covers of `cover_logic`. The layer above uses that `lift` is
//! the exact extension of a cover at every vector (`cover`), that rails stay proper, that every earlier node
//! keeps its function, and how many nodes are added (`grows`).
#![tactic(auto)]

mod classes;
mod diagram;
mod expand;
mod laws;
mod lifting;
mod live;
mod rail;
mod rows;

pub use diagram::{LocalDiagram, local};
pub use laws::{sizes, working_lists};
pub use lifting::lift;
pub use rail::{Rails, rails_of, var_rails};
