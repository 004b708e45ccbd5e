//! The outside, as `cyc` sees it: a shelf of files that are read, and sinks that take bytes. Both may tell their
//! content, for what is claimed of it, and count their faults, which shows the cause of a refusal.
//!
//! It stands on `cyc_base`. The crates above use that `read_whole` gives a file's bytes, and that `write_whole`
//! appends all of a text, or a prefix where a write failed; texts of parts, numbers and bits go out by `put_two`,
//! `put_number`, `put_bits` and their kin. `HostShelf` and `HostSink` are the trusted edge.
#![tactic(auto)]

mod counts;
mod host;
mod memory_shelf;
mod memory_sink;
mod put;
mod shelf;
mod sink;
mod text;

pub use host::{HostShelf, HostSink};
pub use memory_shelf::MemoryShelf;
pub use memory_sink::MemorySink;
pub use put::{
    bit_text, put_bits, put_number, put_number_between, put_numbered, put_three, put_two,
};
pub use shelf::{ReadFault, Shelf, ShelfFault, read_whole};
pub use sink::{Failed, Sink, write_whole};
pub use text::TextSink;
