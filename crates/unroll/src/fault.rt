ghost use Rattle.std.specs.Prelude.{◌≡◌};
ghost use Rattle.unroll.specs.declared.fault.UnrollFault.TheVariants.{Memory};

use std::alloc::AllocError;
use std::fmt;
use thiserror::Error;

/// Why a netlist isn't unrolled.
#[derive(Clone, Copy, Debug, PartialEq, Eq, Error)]
pub enum UnrollFault {
    /// The unrolled netlist has this many gates and latches, over 4,000,000.
    TooLarge { size: u64 },
    Memory,
}

impl fmt::Display for UnrollFault {
    fn fmt<W: fmt::Write>(&self, f: &mut fmt::Formatter<W>) -> fmt::Result {
        f.write_str("the netlist is not unrolled")
    }
}

impl From<AllocError> for UnrollFault {
    ghost from_gives = { λ _ e. e ≡ Memory };

    fn from(_e: AllocError) -> UnrollFault {
        UnrollFault::Memory
    }
}
