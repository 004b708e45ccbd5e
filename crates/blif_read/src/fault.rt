ghost use Rattle.std.specs.Prelude.{◌≡◌};
ghost use Rattle.blif_read.specs.declared.fault.BlifFault.TheVariants.{Memory};
ghost use Rattle.blif_read.specs.TextFaults.{of_text};

use blif_text::TextFault;
use std::alloc::{AllocError, AllocFailed};
use std::fmt;
use thiserror::Error;

/// Why a BLIF text has no models. A bad byte anywhere comes before all others; then the first line with a
/// fault decides, and on one line the first that its variant names. Lines are counted from 1, and the line
/// of a fault is the first physical line of its logical line.
#[derive(Clone, Copy, Debug, Error)]
pub enum BlifFault {
    /// A byte outside comments is neither blank, tab nor a printed character.
    BadByte { line: u64 },
    /// No model is in progress at the line, and it isn't a `.model` line.
    OutsideModel { line: u64 },
    /// A `.model` line has other than one word behind its first.
    BadModel { line: u64 },
    /// An earlier model has the name of this `.model` line.
    ModelTwice { line: u64 },
    /// The directive is one that the profile leaves out.
    LeftOut { line: u64 },
    /// The directive is unknown.
    UnknownDirective { line: u64 },
    /// The last directive before a row isn't `.names`.
    StrayRow { line: u64 },
    /// A row isn't a literal for each pin and a last word `0` or `1`.
    BadRow { line: u64 },
    /// The last word of a row differs from that of the cover's first row.
    MixedRows { line: u64 },
    /// A `.names` line has no output.
    NoOutputName { line: u64 },
    /// A `.names` line has over 1,024 pins.
    TooManyPins { line: u64 },
    /// A `.latch` line has a wrong number of words, an unknown type or an unknown init.
    BadLatch { line: u64 },
    /// A `.latch` line has one of the types `ah`, `al` and `as`.
    LevelLatch { line: u64 },
    /// A `.subckt` line has no model, or a word without `=` or with nothing on one side of it.
    BadSubckt { line: u64 },
    /// The text has no `.model` line.
    NoModel,
    Memory,
}

impl fmt::Display for BlifFault {
    fn fmt<W: fmt::Write>(&self, f: &mut fmt::Formatter<W>) -> fmt::Result {
        f.write_str("the text has no models")
    }
}

impl From<AllocError> for BlifFault {
    ghost from_gives = { λ _ e. e ≡ Memory };

    fn from(_e: AllocError) -> BlifFault {
        BlifFault::Memory
    }
}

impl<T: Drop> From<AllocFailed<T>> for BlifFault {
    ghost from_gives = { λ _ e. e ≡ Memory };

    fn from(_e: AllocFailed<T>) -> BlifFault {
        BlifFault::Memory
    }
}

impl From<TextFault> for BlifFault {
    ghost from_gives = { λ fault e. e ≡ of_text fault };

    fn from(fault: TextFault) -> BlifFault {
        match fault {
            TextFault::BadByte { line } => BlifFault::BadByte { line },
            TextFault::Memory => BlifFault::Memory,
        }
    }
}
