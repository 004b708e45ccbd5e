ghost use Rattle.std.specs.Prelude.{◌≡◌};
ghost use Rattle.sched_text.specs.declared.fault.SchedFault.TheVariants.{Memory};
ghost use Rattle.sched_text.specs.Faults.{of_text};

use blif_text::TextFault;
use cyc_base::Name;
use std::alloc::{AllocError, AllocFailed};
use std::fmt;
use thiserror::Error;

/// Why a text holds no vectors or no schedule. A bad byte anywhere comes before all others; then the first line with
/// a fault decides, and on one line the first in the order here. Lines are counted from 1.
#[derive(Drop, Error)]
pub enum SchedFault {
    /// A byte outside comments is neither blank, tab nor a printed character, or the line isn't one that may stand
    /// there; or a line is missing where the text ends.
    BadLine { line: u64 },
    /// The line has another number of values than the netlist has inputs, signals, latches or gates.
    WrongWidth { line: u64 },
    /// The latch, by its place among the latches, is the first whose init doesn't permit the value that it starts with.
    BadStart { line: u64, latch: u32 },
    /// No gate has the name.
    UnknownGate { line: u64, name: Name },
    /// The line begins a tick over the number of vectors, or there are fewer ticks where the text ends.
    TickCount { line: u64 },
    Memory,
}

impl fmt::Debug for SchedFault {
    fn fmt<W: fmt::Write>(&self, f: &mut fmt::Formatter<W>) -> fmt::Result {
        fmt::Display::fmt(self, f)
    }
}

impl fmt::Display for SchedFault {
    fn fmt<W: fmt::Write>(&self, f: &mut fmt::Formatter<W>) -> fmt::Result {
        f.write_str("the text holds no vectors or no schedule")
    }
}

impl From<AllocError> for SchedFault {
    ghost from_gives = { λ _ e. e ≡ Memory };

    fn from(_e: AllocError) -> SchedFault {
        SchedFault::Memory
    }
}

impl<T: Drop> From<AllocFailed<T>> for SchedFault {
    ghost from_gives = { λ _ e. e ≡ Memory };

    fn from(_e: AllocFailed<T>) -> SchedFault {
        SchedFault::Memory
    }
}

impl From<TextFault> for SchedFault {
    ghost from_gives = { λ fault e. e ≡ of_text fault };

    fn from(fault: TextFault) -> SchedFault {
        match fault {
            TextFault::BadByte { line } => SchedFault::BadLine { line },
            TextFault::Memory => SchedFault::Memory,
        }
    }
}
