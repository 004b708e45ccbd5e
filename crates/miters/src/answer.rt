use cyc_base::{Bits, Name};
use refusals::Refusal;

/// What a comparison of two netlists finds.
pub enum Answer {
    /// Both are accepted, and agree on each care vector.
    Equal,
    /// One of them has this name, and the other doesn't have it in its place.
    Unmatched { name: Name },
    /// The first is refused.
    First(Refusal),
    /// The first is accepted, and the second is refused.
    Second(Refusal),
    /// On this care vector of the first, its output at this place differs.
    Output { vector: Bits, at: u32 },
    /// No output differs on this care vector, and the latch at this place loads another value.
    Latch { vector: Bits, at: u32 },
}

impl Drop for Answer {
    fn drop(self) {
        match self {
            Answer::Equal => {}
            Answer::Unmatched { name: _ } => {}
            Answer::First(_) => {}
            Answer::Second(_) => {}
            Answer::Output { vector: _, at: _ } => {}
            Answer::Latch { vector: _, at: _ } => {}
        }
    }
}
