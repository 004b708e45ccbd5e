//! Unrolled netlists that are too large. The texts of others are lines of the crate `cases`.

use crate::asked::{ANY, Asked, is_right_of};
use cyc_base::Items;
use loops::{LoopedNetlist, SweepCounts};
use std::alloc::Global;
use std::test::Fail;
use unroll::{UnrollFault, unroll};

/// A gate that reads itself.
const SELF_LOOP: &[u8] = b".model m\n.inputs x\n.outputs a\n.names x a a\n1- 1\n-1 1\n.end\n";

/// Why a netlist isn't unrolled by 4,000,000 sweeps of each loop.
fn fault_by(alloc: Global, looped: &LoopedNetlist<'_>) -> Result<Option<UnrollFault>, Fail> {
    let net = looped.net();
    if net.inputs() > 1 {
        return Err(Fail::from("many inputs"));
    }
    let blocks = looped.blocks();
    let per_block = vec![in alloc; 4_000_000; blocks.list.items().len()]?;
    let sweeps = SweepCounts {
        per_block: Items::of(per_block),
    };
    Ok(unroll(alloc, net, blocks, looped.cut(), &sweeps).err())
}

/// Whether it isn't, since it would be of this size.
pub fn is_too_large(alloc: Global, looped: &LoopedNetlist<'_>, size: u64) -> Result<bool, Fail> {
    Ok(fault_by(alloc, looped)? == Some(UnrollFault::TooLarge { size }))
}

pub fn is_right(alloc: Global) -> Result<bool, Fail> {
    is_right_of(alloc, SELF_LOOP, ANY, Asked::Unrolled(4_000_002))
}
