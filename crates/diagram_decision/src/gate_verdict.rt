use refusals::Refusal;

/// The verdict of the gates of a netlist on care.
#[derive(Drop)]
pub enum GateVerdict {
    /// Nothing refuses the netlist for them, and so many are unknown on some care vector.
    Determined { loose: u32 },
    Refused(Refusal),
}
