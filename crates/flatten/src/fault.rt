ghost use Rattle.std.specs.Prelude.{◌≡◌};
ghost use Rattle.flatten.specs.declared.fault.FlatFault.TheVariants.{Memory};

use cyc_base::Name;
use std::alloc::{AllocError, AllocFailed};
use std::fmt;
use thiserror::Error;

/// Why models have no flat netlist. The first seven are looked for in one walk in depth-first order of the
/// text, where the first item with a fault decides; then the others, one after another in their order.
#[derive(Drop, Error)]
pub enum FlatFault {
    /// The top, or the model of an instance, is no model of the file.
    UnknownModel { name: Name },
    /// The model of an instance is the top or lies on the path to it.
    Recursive { name: Name },
    /// The instance would lie more than 200 deep.
    TooDeep { name: Name },
    /// A pair binds what is neither an input, an output nor a clock of the model.
    UnknownFormal { name: Name },
    /// An earlier pair of the instance binds the formal.
    FormalTwice { name: Name },
    /// No pair of the instance binds this input, or else this clock.
    OpenInput { name: Name },
    /// There are over 4,000,000 gates, latches and instances.
    TooLarge,
    /// The top's inputs, or else its outputs, have the name twice.
    DeclaredTwice { name: Name },
    /// An earlier driver drives the wire too.
    DrivenTwice { name: Name },
    /// The wire is read and not driven.
    Undriven { name: Name },
    /// The control of this latch is no clock of the top, or isn't that of the first latch with a control.
    BadClock { name: Name },
    /// The wire is read, and only a `.clock` line of the top declares it.
    ClockRead { name: Name },
    Memory,
}

impl fmt::Debug for FlatFault {
    fn fmt<W: fmt::Write>(&self, f: &mut fmt::Formatter<W>) -> fmt::Result {
        fmt::Display::fmt(self, f)
    }
}

impl fmt::Display for FlatFault {
    fn fmt<W: fmt::Write>(&self, f: &mut fmt::Formatter<W>) -> fmt::Result {
        f.write_str("the models have no flat netlist")
    }
}

impl From<AllocError> for FlatFault {
    ghost from_gives = { λ _ e. e ≡ Memory };

    fn from(_e: AllocError) -> FlatFault {
        FlatFault::Memory
    }
}

impl<T: Drop> From<AllocFailed<T>> for FlatFault {
    ghost from_gives = { λ _ e. e ≡ Memory };

    fn from(_e: AllocFailed<T>) -> FlatFault {
        FlatFault::Memory
    }
}
