use crate::kept::KeptRails;
use cyc_base::Items;
use dual_rail::Rails;

/// The cut wires of a loop, sweep by sweep.
pub struct LoopSteps {
    /// The place of the loop among the blocks.
    pub block: u32,
    /// The numbers of the loop's cut wires, in flat order.
    pub cuts: Items<u32>,
    /// What the cut wires are after so many sweeps: at first all X, and in the end at the fixpoint.
    pub steps: Items<Items<KeptRails>>,
}

impl Drop for LoopSteps {
    fn drop(self) {
        let LoopSteps {
            block: _,
            cuts: _,
            steps: _,
        } = self;
    }
}

/// The fixpoint of a netlist at every vector.
pub struct Solved {
    /// One for each signal.
    pub rails: Items<KeptRails>,
    /// The loops, in the order of the blocks.
    pub loops: Items<LoopSteps>,
}

impl Drop for Solved {
    fn drop(self) {
        let Solved { rails: _, loops: _ } = self;
    }
}

/// A loop that was just solved: its cut wires, sweep by sweep, as nodes that are not kept yet.
#[derive(Drop)]
pub struct SweptLoop {
    pub(crate) block: u32,
    pub(crate) cuts: Items<u32>,
    pub(crate) steps: Items<Items<Rails>>,
}
