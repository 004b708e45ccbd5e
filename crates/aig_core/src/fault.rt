ghost use Rattle.std.specs.Prelude.{◌≡◌};
ghost use Rattle.aig_core.specs.declared.fault.AigFault.TheVariants.{Memory};

use std::alloc::{AllocError, AllocFailed};
use thiserror::Error;

/// Why a graph makes no edge.
#[derive(Clone, Copy, Debug, PartialEq, Eq, Error)]
pub enum AigFault {
    /// A new AND is needed, and there are 4,000,000.
    #[error("the graph has over 4,000,000 ANDs")]
    TooLarge,
    #[error("no memory")]
    Memory,
}

impl From<AllocError> for AigFault {
    ghost from_gives = { λ _ fault. fault ≡ Memory };

    fn from(_e: AllocError) -> AigFault {
        AigFault::Memory
    }
}

impl<T: Drop> From<AllocFailed<T>> for AigFault {
    ghost from_gives = { λ _ fault. fault ≡ Memory };

    fn from(_e: AllocFailed<T>) -> AigFault {
        AigFault::Memory
    }
}
