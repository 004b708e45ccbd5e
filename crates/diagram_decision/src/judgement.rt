use refusals::Refusal;

/// Whether a netlist is accepted on a care set.
#[derive(Drop)]
pub enum Judgement {
    /// It is. `loose` is the number of gates that are unknown on some care vector. There is none where all gates are
    /// observed.
    Accepted { loose: u32 },
    Refused(Refusal),
}
