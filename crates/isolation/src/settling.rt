//! Whether a loop is settled by itself, whatever the wires outside are.

ghost use Rattle.std.specs.Prelude.{◌≡◌, ◌≢◌, ◌<◌, ◌≤◌, ◌+◌, ◌*◌, ◌⊎◌, true, false, Bool, List, length, map, All, IfOk, IfSome, IfNone};
ghost use Rattle.bdd_store.specs.Growth.{AddsWithin, Grows, GrowsWithin, NoOtherCause};
ghost use Rattle.bdd_store.specs.Subfunctions.{nodes};
ghost use Rattle.bdd_ops.specs.Operations.{disjunction};
ghost use Rattle.cyc_base.specs.declared.trit.Trit.TheVariants.{X};
ghost use Rattle.dual_rail.specs.Rails.{AreRailsOf, value_of};
ghost use Rattle.dual_rail.specs.WorkingLists.{IsWide};
ghost use Rattle.loops.specs.Blocks.{block_at};
ghost use Rattle.loops.specs.Sweeps.{first_gate};
ghost use Rattle.fixpoint.specs.Columns.{AreColumns};
ghost use Rattle.fixpoint.specs.Kept.{rails_under, AreKept};
ghost use Rattle.fixpoint.specs.Orders.{order as order_of};
ghost use Rattle.fixpoint.specs.Solved.{AreGiven};
ghost use Rattle.fixpoint.specs.Working.{HasLargeCover};
ghost use Rattle.isolation.specs.Settled.{AreFixedAfter, SettleInSweeps};
ghost use Rattle.isolation.specs.Settling.{counting_cost, settling_cost, AreKnown, BoundsKnown, HasUnknownRails, HasUnknownVector, IsSettledIn, IsSolvedNetlist};
ghost use Rattle.isolation.specs.Unsettled.{AreUnsettled, HasUnknown, IsBelowEnough, IsLaid};

use crate::excerpt::loop_netlist;
use bdd_ops::Diagrams;
use bdd_store::{Node, StoreFault};
use cyc_base::MAX_NODES;
use dual_rail::Rails;
use feedback_cuts::NetlistLoops;
use fixpoint::laws::solutions;
use fixpoint::{KeptRails, Solved, column_rails, keep_rails, order, rails_of, solve, sweeps};
use loops::{Blocks, LoopedNetlist};
use netlist::Netlist;
use std::alloc::{AllocError, Global};

/// Whether these rails are X at no vector.
fn is_known(d: &mut Diagrams, rails: Rails) -> Result<bool, StoreFault>
    requires { AreRailsOf d.old rails }
    ensures known { IfOk result (λ known. known ≡ true → (v : List Bool) → value_of d.old rails v ≢ X) }
    ensures unknown { IfOk result (λ known. known ≡ false → HasUnknownVector d.old rails) }
    ensures grows { Grows result d.old d.new (nodes d.old.vars (disjunction d.old rails.one rails.zero)) }
{
    let either = d.or(rails.one, rails.zero)?;
    d.store().laws();
    Ok(either == Node::of(true))
}

/// Whether none of these rails is X at any vector.
fn are_known(d: &mut Diagrams, rails: &[Rails]) -> Result<bool, StoreFault>
    requires { All (AreRailsOf d.old) rails.now }
    ensures known { IfOk result (λ known. known ≡ true → AreKnown d.old rails.now) }
    ensures unknown { IfOk result (λ known. known ≡ false → HasUnknownRails d.old rails.now) }
    ensures grows { GrowsWithin result d.old d.new NoOtherCause (BoundsKnown d.old rails.now) (length rails.now) }
{
    for one in rails {
        if !is_known(d, *one)? {
            return Ok(false);
        }
    }
    Ok(true)
}

/// The greatest of these numbers, or 0.
fn greatest(numbers: &[u32]) -> u32
    ensures { All (λ n. n ≤ result) numbers.now }
{
    numbers.iter().copied().max().unwrap_or(0)
}

/// The rails of a netlist's columns, laid on the variables in its order and kept.
fn kept_columns(
    alloc: Global,
    d: &mut Diagrams,
    net: &Netlist,
) -> Result<Vec<KeptRails>, StoreFault>
    requires { d.old.vars ≡ first_gate net.now }
    ensures given { IfOk result (λ kept. AreGiven net.now d.new kept.items) }
    ensures columns { IfOk result (λ kept. AreColumns d.new (order_of net.now) (map (rails_under d.new) kept.items)) }
    ensures vars { d.new.vars ≡ d.old.vars }
    ensures limit { d.new.limit ≡ d.old.limit }
    ensures adds { AddsWithin result d.old d.new NoOtherCause (λ w. d.old.vars + 1 ≤ w) 2 }
{
    let columns = order(alloc, net)?;
    let rails = column_rails(alloc, d, &columns)?;
    Ok(keep_rails(alloc, d, &rails)?)
}

/// Whether no signal of a solved netlist is X at any vector.
fn is_determined(alloc: Global, d: &mut Diagrams, solved: &[KeptRails]) -> Result<bool, StoreFault>
    requires keys { All (AreKept d.old) solved.now }
    requires proper { All (AreRailsOf d.old) (map (rails_under d.old) solved.now) }
    ensures known { IfOk result (λ known. known ≡ true → AreKnown d.old (map (rails_under d.old) solved.now)) }
    ensures unknown { IfOk result (λ known. known ≡ false → HasUnknownRails d.old (map (rails_under d.old) solved.now)) }
    ensures grows { GrowsWithin result d.old d.new NoOtherCause (BoundsKnown d.old (map (rails_under d.old) solved.now)) (length solved.now) }
{
    let rails = rails_of(alloc, d, solved)?;
    are_known(d, &rails)
}

/// The greatest number of sweeps that a loop of a solved netlist needs.
fn most_sweeps(
    alloc: Global,
    d: &mut Diagrams,
    blocks: &Blocks,
    solved: &Solved,
) -> Result<u32, StoreFault>
    requires { IsSolvedNetlist d.old blocks.now solved.now }
    ensures sweeps { (is : IsSolvedNetlist d.old blocks.now solved.now) → IfOk result (λ k. AreFixedAfter k is.net) }
    ensures grows { (is : IsSolvedNetlist d.old blocks.now solved.now) →
        GrowsWithin result d.old d.new NoOtherCause (IsWide d.old.vars (IsLaid is.net)) (6 * length is.net.gates * (length is.net.gates + 2)) }
{
    solutions();
    let counts = sweeps(alloc, d, solved, blocks, Node::of(true))?;
    Ok(greatest(counts.per_block.items()))
}

/// How many sweeps are enough for the loops of a solved netlist, if no gate of it is X at any Boolean vector.
fn settled_sweeps(
    alloc: Global,
    d: &mut Diagrams,
    blocks: &Blocks,
    solved: &Solved,
) -> Result<Option<u32>, StoreFault>
    requires { IsSolvedNetlist d.old blocks.now solved.now }
    ensures settled { (is : IsSolvedNetlist d.old blocks.now solved.now) → IfOk result (λ found. IfSome found (IsSettledIn is.net)) }
    ensures unknown { (is : IsSolvedNetlist d.old blocks.now solved.now) → IfOk result (λ found. IfNone found (HasUnknown is.net)) }
    ensures grows { (is : IsSolvedNetlist d.old blocks.now solved.now) →
        GrowsWithin result d.old d.new NoOtherCause (IsWide d.old.vars (IsLaid is.net)) (counting_cost is.net) }
{
    d.store().laws();
    solutions();
    if !is_determined(alloc, d, solved.rails.items())? {
        return Ok(None);
    }
    let most = most_sweeps(alloc, d, blocks, solved)?;
    Ok(Some(most))
}

/// How many sweeps are enough for the loops of a netlist, if no gate of it is X at any Boolean vector.
fn settle_on(
    alloc: Global,
    d: &mut Diagrams,
    looped: &LoopedNetlist<'_>,
) -> Result<Option<u32>, StoreFault>
    requires vars { d.old.vars ≡ first_gate looped.now.net }
    requires some { 0 < length looped.now.net.gates }
    ensures settled { IfOk result (λ found. IfSome found (IsSettledIn looped.now.net)) }
    ensures unknown { IfOk result (λ found. IfNone found (HasUnknown looped.now.net)) }
    ensures limit { d.new.limit ≡ d.old.limit }
    ensures adds { AddsWithin result d.old d.new (HasLargeCover looped.now.net) (IsWide d.old.vars (IsLaid looped.now.net)) (settling_cost looped.now.net) }
{
    let net = looped.net();
    let blocks = looped.blocks();
    net.laws();
    let given = kept_columns(alloc, d, net)?;
    let solved = solve(alloc, d, net, blocks, looped.cut(), given)?;
    settled_sweeps(alloc, d, blocks, &solved)
}

/// How many sweeps are enough for the loops of a netlist, whose blocks and cut wires are found here, on diagrams of its
/// own that hold at most `budget` nodes.
fn settle(alloc: Global, net: &Netlist, budget: u32) -> Result<Option<u32>, StoreFault>
    requires some { 0 < length net.now.gates }
    requires budget { budget ≤ MAX_NODES }
    ensures settled { IfOk result (λ found. IfSome found (IsSettledIn net.now)) }
    ensures unknown { IfOk result (λ found. IfNone found (HasUnknown net.now)) }
    ensures full { result ≡ Err StoreFault.Full → IsBelowEnough net.now budget }
{
    let loops = NetlistLoops::find(alloc, net)?;
    let mut d = Diagrams::new(alloc, net.columns(), budget)?;
    settle_on(alloc, &mut d, &loops.looped())
}

/// The same, and no number where the nodes were too few.
fn settle_within(alloc: Global, net: &Netlist, budget: u32) -> Result<Option<u32>, AllocError>
    requires some { 0 < length net.now.gates }
    requires budget { budget ≤ MAX_NODES }
    ensures settled { IfOk result (λ found. IfSome found (IsSettledIn net.now)) }
    ensures unknown { IfOk result (λ found. IfNone found (HasUnknown net.now ⊎ IsBelowEnough net.now budget)) }
{
    match settle(alloc, net, budget) {
        Ok(found) => Ok(found),
        Err(StoreFault::Full) => Ok(None),
        Err(StoreFault::Memory) => Err(AllocError),
    }
}

/// How many sweeps are enough for a loop that is settled by itself: taken as a netlist whose inputs are the wires
/// that its gates read from outside, none of its gates is X at any Boolean vector (Malik 1994, of one block). `place`
/// is the loop's place among the blocks. The diagrams are the call's own, and hold at most `budget` nodes. The number
/// need not be the least.
///
/// It answers `None` only where one of its gates is X at a Boolean vector of these wires, or where `budget` is below
/// `16 * w * (gates + 2) * (effort + wires + 4)`, whatever w is that bounds the functions which this netlist's solution
/// works with (`AreUnsettled`). It answers `AllocError` for want of memory alone.
///
/// The condition is that there is a block at this place, and that the budget is at most 50,000,000.
pub fn settles_alone(
    alloc: Global,
    looped: &LoopedNetlist<'_>,
    place: u32,
    budget: u32,
) -> Result<Option<u32>, AllocError>
    requires place { place < length looped.now.blocks.list }
    requires budget { budget ≤ MAX_NODES }
    ensures settled { IfOk result (λ found. IfSome found (SettleInSweeps looped.now.net (block_at looped.now.blocks place).gates)) }
    ensures unsettled { IfOk result (λ found. IfNone found (AreUnsettled looped.now.net (block_at looped.now.blocks place).gates budget)) }
{
    let Some(small) = loop_netlist(alloc, looped, place)? else {
        return Ok(None);
    };
    settle_within(alloc, &small, budget)
}
