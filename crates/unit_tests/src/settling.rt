//! Loops that are settled where they stand.

use crate::asked::{ANY, Asked, is_right_of};
use isolation::settles_alone;
use loops::LoopedNetlist;
use std::alloc::Global;
use std::test::Fail;

/// Two units that share a loop: c says which of them comes first.
const UNITS: &[u8] =
    b".model m\n.inputs c x\n.outputs f g\n.names c x g f\n11- 1\n0-1 1\n.names c f x g\n11- 1\n0-1 1\n.end\n";

/// A gate that reads itself.
const SELF_LOOP: &[u8] = b".model m\n.inputs x\n.outputs a\n.names x a a\n1- 1\n-1 1\n.end\n";

/// Whether so many sweeps are enough for a netlist's one loop, within so many nodes.
pub fn is_settled_alone(
    alloc: Global,
    looped: &LoopedNetlist<'_>,
    budget: u32,
    sweeps: Option<u32>,
) -> Result<bool, Fail> {
    if looped.blocks().list.items().len() != 1 || budget > 1_000 {
        return Err(Fail::from("another question"));
    }
    Ok(settles_alone(alloc, looped, 0, budget)? == sweeps)
}

pub const CASES: u32 = 3;

pub fn is_right(alloc: Global, case: u32) -> Result<bool, Fail> {
    let (text, asked) = match case {
        0 => (UNITS, Asked::Alone(1_000, Some(1))),
        1 => (UNITS, Asked::Alone(1, None)),
        _ => (SELF_LOOP, Asked::Alone(1_000, None)),
    };
    is_right_of(alloc, text, ANY, asked)
}
