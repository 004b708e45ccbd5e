ghost use Rattle.std.specs.Prelude.{◌≡◌};
ghost use Rattle.care_sets.specs.declared.fault.CareFault.TheVariants.{Memory};

use cyc_base::Name;
use std::alloc::{AllocError, AllocFailed};
use std::fmt;
use thiserror::Error;

/// Why the models of a care file can't be bound to a netlist. After `NoModels` they are looked for in this
/// order in the assumption, and then in the invariant; but want of memory may come at any time.
#[derive(Debug, Drop, Error)]
pub enum CareFault {
    /// There is neither an assumption nor an invariant.
    NoModels,
    /// The model has a latch.
    HasLatch { model: Name },
    /// The model has no output, or several.
    NotOneOutput { model: Name },
    /// This input of the model is the first that is neither an input nor a latch of the netlist.
    UnknownName { name: Name },
    /// This input of the invariant is the first that is an input of the netlist.
    NotLatch { name: Name },
    /// A walk in the model leads from a gate back to it.
    Loop { model: Name },
    Memory,
}

impl fmt::Display for CareFault {
    fn fmt<W: fmt::Write>(&self, f: &mut fmt::Formatter<W>) -> fmt::Result {
        f.write_str("the models can't be bound to the netlist")
    }
}

impl From<AllocError> for CareFault {
    ghost from_gives = { λ _ e. e ≡ Memory };

    fn from(_e: AllocError) -> CareFault {
        CareFault::Memory
    }
}

impl<T: Drop> From<AllocFailed<T>> for CareFault {
    ghost from_gives = { λ _ e. e ≡ Memory };

    fn from(_e: AllocFailed<T>) -> CareFault {
        CareFault::Memory
    }
}
