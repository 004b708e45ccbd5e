//! Loops that are settled by themselves, so that no diagrams of the whole are wanted.

ghost use Rattle.std.specs.Prelude.{◌≡◌, ◌<◌, ◌≤◌, true, length, IfOk};
ghost use Rattle.loops.specs.Blocks.{block_at};
ghost use Rattle.isolation.specs.Settled.{SettleInSweeps};
ghost use Rattle.isolation.specs.Alone.{SettleInOneSweep};

use crate::settling::settles_alone;
use cyc_base::MAX_NODES;
use loop_simulation::sweeps_at;
use loops::{LoopedNetlist, gates_at};
use std::alloc::{AllocError, Global};

/// The most nodes that are spent on one loop by itself, so that a loop which isn't settled soon costs little.
pub const LOOP_NODES: u32 = 100_000;

/// How many times fewer nodes are spent on a loop, at the least, after others that weren't seen to be settled.
const LEAST_PART: u32 = 64;

/// How many times as large as a loop its netlist may be for the whole to be simulated for that loop's sake.
const MOST_TIMES: usize = 16;

/// The number of the block at this place: there are no more blocks than gates.
///
/// The condition is that there is a block there.
#[tactic(auto, using(crate::proofs::AloneLemmas::few_blocks))]
pub fn block_number(looped: &LoopedNetlist<'_>, place: usize) -> u32
    requires { place < length looped.now.blocks.list }
    ensures { result ≡ place }
{
    looped.net().laws();
    place as u32
}

/// Whether the loop at this place needs more than one sweep at the vector of zeros. That isn't asked of a loop that is a
/// small part of its netlist: its diagrams take less time than a simulation of the whole.
fn needs_more_at_zeros(
    alloc: Global,
    looped: &LoopedNetlist<'_>,
    block: u32,
) -> Result<bool, AllocError>
    requires block { block < length looped.now.blocks.list }
    requires looped { (block_at looped.now.blocks block).looped ≡ true }
{
    let net = looped.net();
    if gates_at(looped, block as usize).len() < net.gates() as usize / MOST_TIMES {
        return Ok(false);
    }
    let zeros = vec![in alloc; false; net.columns() as usize]?;
    let sweeps = sweeps_at(alloc, looped, block, &zeros)?;
    Ok(sweeps > 1)
}

/// Whether the loop at this place is settled by itself in one sweep. False where so many nodes are too few to tell.
fn settles_in_one_sweep(
    alloc: Global,
    looped: &LoopedNetlist<'_>,
    block: u32,
    budget: u32,
) -> Result<bool, AllocError>
    requires block { block < length looped.now.blocks.list }
    requires budget { budget ≤ MAX_NODES }
    ensures { IfOk result (λ settled. settled ≡ true → SettleInSweeps looped.now.net (block_at looped.now.blocks block).gates 1) }
{
    match settles_alone(alloc, looped, block, budget)? {
        Some(sweeps) => Ok(sweeps == 1),
        None => Ok(false),
    }
}

/// How many nodes the next loop may take, where this one had so many: half of them where they didn't show that it is
/// settled, since loops of one netlist are often alike, and else twice as many.
fn next_budget(nodes: u32, most: u32, settled: bool) -> u32
    ensures { result ≤ most }
{
    let next = if settled {
        nodes.saturating_mul(2)
    } else {
        (nodes / 2).max(most / LEAST_PART)
    };
    next.min(most)
}

/// Whether the block at this place is settled by itself in one sweep, or is no loop. Diagrams would make each sweep of a
/// loop that needs many, so one vector is tried before. `nodes` are those that diagrams may have, for this loop and then for
/// the next, and `most` as many as these can be.
fn is_settled(
    alloc: Global,
    looped: &LoopedNetlist<'_>,
    place: usize,
    nodes: &mut u32,
    most: u32,
) -> Result<bool, AllocError>
    requires place { place < length looped.now.blocks.list }
    requires nodes { nodes.old ≤ most }
    requires most { most ≤ MAX_NODES }
    ensures nodes { nodes.new ≤ most }
    ensures settled { IfOk result (λ settled. settled ≡ true → (block_at looped.now.blocks place).looped ≡ true → SettleInSweeps looped.now.net (block_at looped.now.blocks place).gates 1) }
{
    if !looped.blocks().list.items()[place].looped {
        return Ok(true);
    }
    let block = block_number(looped, place);
    if needs_more_at_zeros(alloc, looped, block)? {
        return Ok(false);
    }
    let settled = settles_in_one_sweep(alloc, looped, block, *nodes)?;
    *nodes = next_budget(*nodes, most, settled);
    Ok(settled)
}

/// Marks the blocks that are settled by themselves in one sweep, and those that are no loops. At most so many nodes are spent on
/// each loop, of which nothing is said where they are too few: it has no mark then. After a loop without a mark fewer are
/// spent on the next, down to a 64th.
///
/// The condition is that they are at most 50,000,000.
pub fn settled_loops(
    alloc: Global,
    looped: &LoopedNetlist<'_>,
    budget: u32,
) -> Result<Vec<bool>, AllocError>
    requires { budget ≤ MAX_NODES }
    ensures width { IfOk result (λ settled. length settled.items ≡ length looped.now.blocks.list) }
    ensures settled { IfOk result (λ settled. SettleInOneSweep looped.now.net looped.now.blocks settled.items) }
{
    let number = looped.blocks().list.items().len();
    let mut settled = Vec::with_capacity(alloc, number)?;
    let mut nodes = budget;
    for place in 0..number {
        settled.push(is_settled(alloc, looped, place, &mut nodes, budget)?)?;
    }
    Ok(settled)
}
