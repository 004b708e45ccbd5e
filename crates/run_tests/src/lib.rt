//! Tests of `run` over files and sinks in memory, from words to a status and two texts: calls of the shelf and of the
//! sinks that fail, standard input as a file, files of great length, and probes that the program doesn't hand in. All
//! other cases of `run` are lines of the crate `cases`, over files.
#![tactic(auto)]

#[cfg(test)]
mod calls;
#[cfg(test)]
mod failing;
#[cfg(test)]
mod input;
#[cfg(test)]
mod limits;
#[cfg(test)]
mod probing;
