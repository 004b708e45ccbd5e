//! What the words of a call ask for.
//!
//! It stands on `refusals` for what is observed and on `cyc_base` for names and limits.
//! The layer above uses the clauses of `files_named` and `command_of_words`: the command is that of `specs/Words.antt`, or
//! nothing for words outside the grammar.
#![tactic(auto)]

mod cases;
mod command;
mod encoding;
mod form;
mod kind;
mod parse;
mod purpose;
mod standard_input;
mod topic;
mod wishes;

pub use cases::Cases;
pub use command::{Cells, Command, Options, Rounds};
pub use encoding::Encoding;
pub use form::Form;
pub use kind::Kind;
pub use parse::command_of_words;
pub use purpose::{Making, Purpose, Telling};
pub use standard_input::files_named;
pub use topic::Topic;
