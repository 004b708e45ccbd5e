//! The decision of a netlist on a care set, for all vectors at once: accepted, with the number of sweeps that each
//! loop needs, or refused, with the least state or vector that shows it (Malik 1994; Shiple, Berry and Touati 1996).
//! All gates are observed, or what is seen from outside.
//!
//! It stands on `isolation`, which finds the loops that are settled by themselves, on `clause_decision`, which is asked
//! first, on `diagram_decision`, which is asked where clauses give up, and on the definitions of `refusals`. The layer above
//! uses that `judge` answers as the definition of acceptance and refusals says (`judgement`), and that `decide` answers so
//! with the sweeps (`verdict`).
#![tactic(auto)]

mod clauses;
mod counting;
mod counts;
mod deciding;
mod determinacy;
mod fanout;
mod fault;
mod ground;
mod invariance;
mod judging;
mod loose;
mod pieces;
mod question;
mod scopes;
mod undetermined;
mod unknown;
mod verdict;
mod witnessed;

pub use deciding::decide;
pub use diagram_decision::Judgement;
pub use fault::DecideFault;
pub use isolation::{LOOP_NODES, settled_loops};
pub use judging::judge;
pub use refusals::Observe;
pub use scopes::known_gates;
pub use verdict::Verdict;
pub use witnessed::judge_with_witness;
