ghost use Rattle.std.specs.Prelude.{◌≡◌};
ghost use Rattle.storm.specs.declared.fault.StormFault.TheVariants as storm_faults;

use std::alloc::{AllocError, AllocFailed};
use std::fmt;
use thiserror::Error;

/// Why there is no schedule.
#[derive(Clone, Copy, Debug, Error)]
pub enum StormFault {
    /// It would have over 4,000,000 events: so many, or 2^64 - 1 where there are more.
    TooLarge { events: u64 },
    Memory,
}

impl fmt::Display for StormFault {
    fn fmt<W: fmt::Write>(&self, f: &mut fmt::Formatter<W>) -> fmt::Result {
        f.write_str("there is no schedule")
    }
}

impl From<AllocError> for StormFault {
    ghost from_gives = { λ _ e. e ≡ storm_faults.Memory };

    fn from(_e: AllocError) -> StormFault {
        StormFault::Memory
    }
}

impl<T: Drop> From<AllocFailed<T>> for StormFault {
    ghost from_gives = { λ _ e. e ≡ storm_faults.Memory };

    fn from(_e: AllocFailed<T>) -> StormFault {
        StormFault::Memory
    }
}
