//! The logical lines of a text: its lines without comments, joined where they end in `\`, as words
//! with line numbers.
//!
//! It stands on `cyc_base`, for what a BLIF name is. The crates above use that `Lines::of` gives the lines
//! which the text has by definition, or the first line with a byte that isn't allowed, and that the parts of
//! `LineParts` are these lines.
#![tactic(auto)]

mod ends;
mod fault;
mod line_buffer;
mod lines;
mod marks;
mod parts;
mod reader;
mod text_line;
mod word_buffer;

pub use fault::TextFault;
pub use lines::{Lines, end_line};
pub use parts::LineParts;
pub use text_line::TextLine;
