ghost use Rattle.std.specs.Prelude.{◌≡◌};
ghost use Rattle.care_rows.specs.declared.fault.RestrictFault.TheVariants.{Memory};

use std::alloc::{AllocError, AllocFailed};
use std::fmt;
use thiserror::Error;

/// Why an assumption isn't made.
#[derive(Clone, Copy, Debug, Error)]
pub enum RestrictFault {
    /// The model would have this many gates, over 4,000,000.
    TooLarge { gates: u64 },
    /// Memory ran out, or the model would have over 4,294,967,295 signals.
    Memory,
}

impl fmt::Display for RestrictFault {
    fn fmt<W: fmt::Write>(&self, f: &mut fmt::Formatter<W>) -> fmt::Result {
        f.write_str("the assumption is not made")
    }
}

impl From<AllocError> for RestrictFault {
    ghost from_gives = { λ _ e. e ≡ Memory };

    fn from(_e: AllocError) -> RestrictFault {
        RestrictFault::Memory
    }
}
