use cyc_base::{Bits, Sig};

/// Why a netlist is refused on a care set. The columns of a vector are the netlist's inputs, and then its
/// latches.
pub enum Refusal {
    /// The inits permit this state, and it isn't in the invariant.
    Initial { state: Bits },
    /// No vector counts.
    EmptyCare,
    /// This gate is unknown in the fixpoint on this care vector.
    Undetermined { vector: Bits, wire: Sig },
    /// The latches' next state after this care vector isn't in the invariant.
    Leaves { vector: Bits, next: Bits },
}

impl Drop for Refusal {
    fn drop(self) {
        match self {
            Refusal::Initial { state: _ } => {}
            Refusal::EmptyCare => {}
            Refusal::Undetermined { vector: _, wire: _ } => {}
            Refusal::Leaves { vector: _, next: _ } => {}
        }
    }
}
