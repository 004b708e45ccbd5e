//! Probes: what hears the changes of a run, one after another, and makes a text of them; a trace, the glitches of gates,
//! the last rounds of ticks, and a value change dump (VCD, IEEE 1364-2001, clause 18), which viewers of waveforms read.
//!
//! It stands on `delay_core`, for plays and their changes. The layers above use that `play_told` tells each probe of a
//! kind exactly the changes of the run, once each and in order, that `show` gives the text of what was heard, that these
//! changes, and the dump of a run, tell the value of each signal at each moment (`laws`), and that one probe of each kind
//! together shows the text of whichever kind is wanted.
#![tactic(auto)]

mod code;
mod dump;
mod glitches;
mod heard;
mod kinds;
mod last;
pub mod laws;
mod pieces;
mod probe;
mod show;
mod shown;
mod tell;
mod told;
mod trace;

pub use code::put_code;
pub use commands::Kind;
pub use dump::VcdOut;
pub use glitches::Glitches;
pub use heard::Heard;
pub use kinds::one_of_each_kind;
pub use last::LastRound;
pub use probe::Probe;
pub use show::show_kind;
pub use shown::{ShownRun, play_shown};
pub use told::play_told;
pub use trace::Trace;
