use fixpoint::SweepCounts;
use refusals::Refusal;

/// What a netlist is on a care set.
#[derive(Drop)]
pub enum Verdict {
    /// It is accepted. `sweeps` are those that its loops need on the care set, and `loose` is the number of gates
    /// that are unknown on some care vector. There is none where all gates are observed.
    Accepted { sweeps: SweepCounts, loose: u32 },
    Refused(Refusal),
}
