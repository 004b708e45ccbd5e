ghost use Rattle.std.specs.Prelude.{◌≡◌};
ghost use Rattle.delay_core.specs.declared.fault.EventFault.TheVariants as event_faults;
ghost use Rattle.delay_core.specs.declared.fault.PlayFault.TheVariants as play_faults;

use std::alloc::{AllocError, AllocFailed};
use std::fmt;
use thiserror::Error;

/// Why an event is refused. The reasons are looked for in this order, but want of memory may come at any time.
#[derive(Clone, Copy, Debug, Error)]
pub enum EventFault {
    /// There is no gate of this number.
    NoGate,
    /// There aren't as many ages as pins.
    AgeCount,
    /// This pin is the first whose age names a moment that isn't there or isn't allowed.
    TooOld { pin: u32 },
    Memory,
}

impl fmt::Display for EventFault {
    fn fmt<W: fmt::Write>(&self, f: &mut fmt::Formatter<W>) -> fmt::Result {
        f.write_str("the event is refused")
    }
}

/// This gate, the first such one in flat order, had no event in the round.
#[derive(Clone, Copy, Debug, Error)]
pub struct Unfair {
    pub gate: u32,
}

impl fmt::Display for Unfair {
    fn fmt<W: fmt::Write>(&self, f: &mut fmt::Formatter<W>) -> fmt::Result {
        f.write_str("a gate without an event")
    }
}

/// Why a schedule isn't played to its end: the first fault in the order of play.
#[derive(Clone, Copy, Debug, Error)]
pub enum PlayFault {
    /// The event of this line is refused, for want of memory never.
    Event { line: u64, fault: EventFault },
    /// In the round of this line a gate, the first in flat order, had no event.
    Unfair { line: u64, gate: u32 },
    Memory,
}

impl fmt::Display for PlayFault {
    fn fmt<W: fmt::Write>(&self, f: &mut fmt::Formatter<W>) -> fmt::Result {
        f.write_str("the schedule is not played to its end")
    }
}

impl From<AllocError> for EventFault {
    ghost from_gives = { λ _ e. e ≡ event_faults.Memory };

    fn from(_e: AllocError) -> EventFault {
        EventFault::Memory
    }
}

impl From<AllocError> for PlayFault {
    ghost from_gives = { λ _ e. e ≡ play_faults.Memory };

    fn from(_e: AllocError) -> PlayFault {
        PlayFault::Memory
    }
}

impl<T: Drop> From<AllocFailed<T>> for PlayFault {
    ghost from_gives = { λ _ e. e ≡ play_faults.Memory };

    fn from(_e: AllocFailed<T>) -> PlayFault {
        PlayFault::Memory
    }
}
