//! Tests of the library crates, each through its public functions, of what no call of `cyc` tells: other cases are lines
//! of the crate `cases`. They stand in one crate since a crate with tests is proved once more for them, and one test walks
//! all tables of cases (`subjects`), since each test has a proof of its own.
#![tactic(auto)]

#[cfg(test)]
mod asked;
#[cfg(test)]
mod by_clauses;
#[cfg(test)]
mod clause_parts;
#[cfg(test)]
mod clauses;
#[cfg(test)]
mod comparisons;
#[cfg(test)]
mod diagrams;
#[cfg(test)]
mod explained;
#[cfg(test)]
mod fixpoints;
#[cfg(test)]
mod formulas;
#[cfg(test)]
mod graphs;
#[cfg(test)]
mod netlists;
#[cfg(test)]
mod operations;
#[cfg(test)]
mod plays;
#[cfg(test)]
mod rails;
#[cfg(test)]
mod refused;
#[cfg(test)]
mod settling;
#[cfg(test)]
mod simulators;
#[cfg(test)]
mod streams;
#[cfg(test)]
mod subjects;
#[cfg(test)]
mod texts;
#[cfg(test)]
mod unrolling;
#[cfg(test)]
mod values;
