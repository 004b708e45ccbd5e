use cyc_base::{Bits, Items};

/// Gates that reach each other along pins, or one gate: a strongly connected component.
pub struct Block {
    /// The numbers of its gates, in flat order.
    pub gates: Items<u32>,
    /// Whether it is a loop: a walk along pins leads from one of its gates back to that gate.
    pub looped: bool,
}

impl Drop for Block {
    fn drop(self) {
        let Block {
            gates: _,
            looped: _,
        } = self;
    }
}

/// The blocks of a netlist. Each gate is in one of them.
pub struct Blocks {
    /// A block stands after the blocks that it reads.
    pub list: Items<Block>,
    /// For each gate the place of its block.
    pub home: Items<u32>,
}

impl Drop for Blocks {
    fn drop(self) {
        let Blocks { list: _, home: _ } = self;
    }
}

/// Which gates are cut wires. Without them no loop is left, and none of them can be left out.
#[derive(Drop)]
pub struct Cut {
    /// One entry for each gate.
    pub wires: Bits,
}

/// How many sweeps loops need.
#[derive(Drop)]
pub struct SweepCounts {
    /// One for each block, and 0 for a block that is no loop.
    pub per_block: Items<u32>,
}
