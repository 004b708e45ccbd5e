ghost use Rattle.std.specs.Prelude.{◌≡◌};
ghost use Rattle.case_split.specs.declared.fault.SplitFault.TheVariants.{Memory};

use std::alloc::AllocError;
use std::fmt;
use thiserror::Error;

/// Why a netlist isn't split by cases.
#[derive(Clone, Copy, Debug, Error)]
pub enum SplitFault {
    /// With two gates for each gate of a loop in each case there may be this many gates and latches, over
    /// 4,000,000.
    TooLarge { size: u64 },
    Memory,
}

impl fmt::Display for SplitFault {
    fn fmt<W: fmt::Write>(&self, f: &mut fmt::Formatter<W>) -> fmt::Result {
        f.write_str("the netlist is not split by cases")
    }
}

impl From<AllocError> for SplitFault {
    ghost from_gives = { λ _ e. e ≡ Memory };

    fn from(_e: AllocError) -> SplitFault {
        SplitFault::Memory
    }
}
