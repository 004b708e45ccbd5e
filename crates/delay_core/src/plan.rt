use crate::events::Events;
use cyc_base::{Bits, Items};
use schedules::Event;

/// An event, and the line of the file that has it.
pub struct PlannedEvent {
    pub line: u64,
    pub event: Event,
}

impl Drop for PlannedEvent {
    fn drop(self) {
        let PlannedEvent { line: _, event: _ } = self;
    }
}

/// A round: its line, and its events in the order in which they come.
pub struct RoundPlan {
    pub line: u64,
    pub events: Events,
}

impl Drop for RoundPlan {
    fn drop(self) {
        let RoundPlan { line: _, events: _ } = self;
    }
}

/// The rounds of a tick.
pub type TickPlan = Items<RoundPlan>;

/// A recorded schedule.
pub struct Schedule {
    /// Pins may read values that are up to so many rounds older.
    pub window: u32,
    /// The moments before the first tick, the oldest first, each with a value for each signal.
    pub past: Items<Bits>,
    /// The latches may start with values that their inits don't permit.
    pub free: bool,
    /// What the latches start with.
    pub latches: Bits,
    /// What the gates start with, in flat order.
    pub gates: Bits,
    pub ticks: Items<TickPlan>,
}

impl Drop for Schedule {
    fn drop(self) {
        let Schedule {
            window: _,
            past: _,
            free: _,
            latches: _,
            gates: _,
            ticks: _,
        } = self;
    }
}

/// How a tick ended.
pub struct TickEnd {
    /// How many rounds it had.
    pub rounds: u64,
    /// Each gate has its value of the ternary fixpoint.
    pub settled: bool,
    /// What the outputs show, in their order.
    pub outputs: Bits,
}

impl Drop for TickEnd {
    fn drop(self) {
        let TickEnd {
            rounds: _,
            settled: _,
            outputs: _,
        } = self;
    }
}
