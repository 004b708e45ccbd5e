ghost use Rattle.std.specs.Prelude.{◌≡◌};
ghost use Rattle.maker.specs.declared.fault.RingFault.TheVariants.{Memory};

use std::alloc::AllocError;
use thiserror::Error;

/// Why there are no texts of a ring. The bounds are looked for first, but want of memory may come at any time.
#[derive(Clone, Copy, Debug, PartialEq, Eq, Error)]
pub enum RingFault {
    /// The ring would have fewer than two cells.
    #[error("too few cells")]
    TooSmall,
    /// The ring would have over 64 cells.
    #[error("too many cells")]
    TooLarge,
    #[error("no memory")]
    Memory,
}

impl From<AllocError> for RingFault {
    ghost from_gives = { λ _ e. e ≡ Memory };

    fn from(_e: AllocError) -> RingFault {
        RingFault::Memory
    }
}
