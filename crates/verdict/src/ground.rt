//! What is found of a netlist once, whatever is asked of it.

ghost use Rattle.std.specs.Prelude.{◌≡◌, length, IfOk};
ghost use Rattle.isolation.specs.Alone.{SettleInOneSweep};
ghost use Rattle.verdict.specs.Questions.{IsGround};

use crate::scopes::known_gates;
use fixpoint::order;
use isolation::{LOOP_NODES, settled_loops};
use loops::LoopedNetlist;
use std::alloc::{AllocError, Global};

/// What is found of a netlist once, for all questions about it.
pub(crate) struct Ground {
    /// The column of each variable of diagrams, in the order in which gates first read them.
    pub order: Vec<u32>,
    /// Marks of the blocks that are settled by themselves in one sweep, and of those that are no loops.
    pub settled: Vec<bool>,
    /// Marks of gates that no Boolean vector leaves unknown.
    pub known: Vec<bool>,
}

impl Drop for Ground {
    fn drop(self) {
        let Ground {
            order: _,
            settled: _,
            known: _,
        } = self;
    }
}

/// The same, where these loops are known to be settled by themselves.
pub(crate) fn ground_with(
    alloc: Global,
    looped: &LoopedNetlist<'_>,
    settled: Vec<bool>,
) -> Result<Ground, AllocError>
    requires width { length settled.items ≡ length looped.now.blocks.list }
    requires settled { SettleInOneSweep looped.now.net looped.now.blocks settled.items }
    ensures { IfOk result (IsGround looped.now) }
{
    let known = known_gates(alloc, looped, &settled)?;
    let order = order(alloc, looped.net())?;
    Ok(Ground {
        order,
        settled,
        known,
    })
}

/// The same, where these marks are copied.
pub(crate) fn ground_among(
    alloc: Global,
    looped: &LoopedNetlist<'_>,
    settled: &[bool],
) -> Result<Ground, AllocError>
    requires width { length settled.now ≡ length looped.now.blocks.list }
    requires settled { SettleInOneSweep looped.now.net looped.now.blocks settled.now }
    ensures { IfOk result (IsGround looped.now) }
{
    ground_with(alloc, looped, settled.to_vec(alloc)?)
}

/// What is found of a netlist, with at most 100,000 nodes of diagrams spent on each loop.
pub(crate) fn ground_of(alloc: Global, looped: &LoopedNetlist<'_>) -> Result<Ground, AllocError>
    ensures { IfOk result (IsGround looped.now) }
{
    let settled = settled_loops(alloc, looped, LOOP_NODES)?;
    ground_with(alloc, looped, settled)
}
