//! Why there are no clauses.
ghost use Rattle.std.specs.Prelude.{◌≡◌};
ghost use Rattle.ternary_clauses.specs.declared.fault.ClausesFault.TheVariants.{Memory};

use std::alloc::{AllocError, AllocFailed};
use thiserror::Error;

/// Why there are no clauses.
#[derive(Clone, Copy, Debug, PartialEq, Eq, Error)]
pub enum ClausesFault {
    /// There would be over 2,147,483,647 variables, or a cover's diagram has over 262,144 nodes.
    #[error("too many variables")]
    TooMany,
    #[error("out of memory")]
    Memory,
}

impl From<AllocError> for ClausesFault {
    ghost from_gives = { λ _ fault. fault ≡ Memory };

    fn from(_e: AllocError) -> ClausesFault {
        ClausesFault::Memory
    }
}

impl<T: Drop> From<AllocFailed<T>> for ClausesFault {
    ghost from_gives = { λ _ fault. fault ≡ Memory };

    fn from(_e: AllocFailed<T>) -> ClausesFault {
        ClausesFault::Memory
    }
}
