use cyc_base::Bits;
use delay_core::PlannedEvent;

/// What a line of a schedule says.
#[derive(Drop)]
pub enum ScheduleStatement {
    /// Which format the lines have.
    Format,
    Window(u32),
    Past(Bits),
    Latches(Bits),
    State(Bits),
    Gates(Bits),
    Tick,
    /// A round begins at this line.
    Round(u64),
    Event(PlannedEvent),
}
