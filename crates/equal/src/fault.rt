ghost use Rattle.std.specs.Prelude.{◌≡◌, ℕ};
ghost use Rattle.equal.specs.declared.fault.EqualFault.TheVariants.{Memory};

use std::alloc::AllocError;
use std::fmt;
use thiserror::Error;
use verdict::DecideFault;

/// Why two netlists aren't compared.
#[derive(Clone, Copy, Debug, PartialEq, Eq, Error)]
pub enum EqualFault {
    /// The diagrams hold as many nodes as they may, or a cover's own diagram would hold more.
    NodeLimit { nodes: u32 },
    Memory,
}

impl fmt::Display for EqualFault {
    fn fmt<W: fmt::Write>(&self, f: &mut fmt::Formatter<W>) -> fmt::Result {
        f.write_str("the netlists are not compared")
    }
}

impl From<AllocError> for EqualFault {
    ghost from_gives = { λ _ fault. fault ≡ Memory };

    fn from(_e: AllocError) -> EqualFault {
        EqualFault::Memory
    }
}

/// The same fault of a comparison.
pub(crate) fn fault_of(fault: DecideFault) -> EqualFault
    ensures limit { (n : ℕ) → fault ≡ DecideFault.NodeLimit n → result ≡ EqualFault.NodeLimit n }
    ensures memory { fault ≡ DecideFault.Memory → result ≡ EqualFault.Memory }
{
    match fault {
        DecideFault::NodeLimit { nodes } => EqualFault::NodeLimit { nodes },
        DecideFault::Memory => EqualFault::Memory,
    }
}
