//! How many sweeps loops need on a care set.

ghost use Rattle.std.specs.Prelude.{◌≡◌, ◌<◌, ◌≤◌, ◌+◌, ◌*◌, ◌↔◌, ℕ, true, [], ◌∷◌, length, map, All, IfOk};
ghost use Rattle.bdd_store.specs.Arena.{IsNodeOf};
ghost use Rattle.bdd_store.specs.Growth.{GrowsWithin, NoOtherCause};
ghost use Rattle.dual_rail.specs.WorkingLists.{IsWide};
ghost use Rattle.netlist.specs.declared.parts.Parts.{Parts};
ghost use Rattle.loops.specs.declared.structure.Cut.{Cut};
ghost use Rattle.loops.specs.Blocks.{AreBlocksOf};
ghost use Rattle.loops.specs.Cuts.{IsCutOf};
ghost use Rattle.fixpoint.specs.Kept.{rails_under, AreKept};
ghost use Rattle.fixpoint.specs.Solved.{Vectors, IsSolution, step_at, last_step, steps_under};
ghost use Rattle.fixpoint.specs.Counts.{AreNodes, SameOn, SameRailsOn, AgreeOn, IsLeastStep, AreCountable, AreLoopsToCount, AreCountsOf, CountSweeps, IsCompared, IsComparedIn, BoundsDifference};

use crate::kept::{KeptRails, rails_of};
use crate::solved::{LoopSteps, Solved};
use bdd_ops::Diagrams;
use bdd_store::{Node, StoreFault};
use cyc_base::Items;
use dual_rail::Rails;
use loops::{Blocks, SweepCounts};
use std::alloc::{AllocError, Global};

/// Whether two nodes have one value at each vector of care.
fn same_on(d: &mut Diagrams, care: Node, m: Node, n: Node) -> Result<bool, StoreFault>
    requires care { IsNodeOf d.old care }
    requires m { IsNodeOf d.old m }
    requires n { IsNodeOf d.old n }
    ensures same { IfOk result (λ same. (same ≡ true) ↔ SameOn d.old care m n) }
    ensures grows { GrowsWithin result d.old d.new NoOtherCause (BoundsDifference d.old care m n) 2 }
{
    let differ = d.xor(m, n)?;
    let seen = d.and(care, differ)?;
    d.store().laws();
    Ok(seen == Node::of(false))
}

/// Whether two rails stand for the same at each vector of care.
fn same_rails_on(d: &mut Diagrams, care: Node, r: Rails, s: Rails) -> Result<bool, StoreFault>
    requires care { IsNodeOf d.old care }
    requires r { AreNodes d.old r }
    requires s { AreNodes d.old s }
    ensures same { IfOk result (λ same. (same ≡ true) ↔ SameRailsOn d.old care r s) }
    ensures grows { GrowsWithin result d.old d.new NoOtherCause (IsWide d.old.vars (IsCompared d.old care ((r ∷ s ∷ []) ∷ []))) 4 }
{
    if !same_on(d, care, r.one, s.one)? {
        return Ok(false);
    }
    let zeros = same_on(d, care, r.zero, s.zero)?;
    Ok(zeros)
}

/// Whether two steps stand for the same at each vector of care.
fn agree_on(
    d: &mut Diagrams,
    care: Node,
    step: &[Rails],
    last: &[Rails],
) -> Result<bool, StoreFault>
    requires care { IsNodeOf d.old care }
    requires step { All (AreNodes d.old) step.now }
    requires last { All (AreNodes d.old) last.now }
    requires width { length step.now ≡ length last.now }
    ensures agree { IfOk result (λ agree. (agree ≡ true) ↔ AgreeOn d.old care step.now last.now) }
    ensures grows { GrowsWithin result d.old d.new NoOtherCause (IsWide d.old.vars (IsCompared d.old care (step.now ∷ last.now ∷ []))) (4 * length last.now) }
{
    for place in 0..last.len() {
        if !same_rails_on(d, care, step[place], last[place])? {
            return Ok(false);
        }
    }
    Ok(true)
}

/// The least number of a step that agrees with the last one on care.
fn least_step(
    d: &mut Diagrams,
    care: Node,
    width: usize,
    steps: &[Items<Rails>],
) -> Result<u32, StoreFault>
    requires care { IsNodeOf d.old care }
    requires nodes { All (All (AreNodes d.old)) steps.now }
    requires widths { All (λ step. length step ≡ width) steps.now }
    requires some { 0 < length steps.now }
    requires fits { (k : ℕ) → IsLeastStep d.old care steps.now k → k ≤ 4294967295 }
    ensures least { IfOk result (IsLeastStep d.old care steps.now) }
    ensures grows { GrowsWithin result d.old d.new NoOtherCause (IsWide d.old.vars (IsCompared d.old care steps.now)) (4 * width * length steps.now) }
{
    let end = steps.len() - 1;
    let last = steps[end].items();
    for number in 0..end {
        if agree_on(d, care, steps[number].items(), last)? {
            return Ok(number as u32);
        }
    }
    Ok(end as u32)
}

/// The steps of a loop as nodes.
fn steps_of(
    alloc: Global,
    d: &Diagrams,
    steps: &[Items<KeptRails>],
) -> Result<Vec<Items<Rails>>, AllocError>
    requires { All (All (AreKept d.now)) steps.now }
    ensures { IfOk result (λ list. list.items ≡ map (map (rails_under d.now)) steps.now) }
{
    let mut list = Vec::with_capacity(alloc, steps.len())?;
    for step in steps {
        let rails = rails_of(alloc, d, step.items())?;
        list.push(Items::of(rails))?;
    }
    Ok(list)
}

/// The least number of a step of a loop that agrees with the last one on care.
fn least_sweeps(
    alloc: Global,
    d: &mut Diagrams,
    care: Node,
    found: &LoopSteps,
) -> Result<u32, StoreFault>
    requires care { IsNodeOf d.old care }
    requires countable { AreCountable d.old care found.now }
    ensures least { IfOk result (IsLeastStep d.old care (steps_under d.old found.now)) }
    ensures grows { GrowsWithin result d.old d.new NoOtherCause (IsWide d.old.vars (IsCompared d.old care (steps_under d.old found.now))) (4 * length found.now.cuts * length found.now.steps) }
{
    d.store().laws();
    let steps = steps_of(alloc, d, found.steps.items())?;
    least_step(d, care, found.cuts.items().len(), &steps)
}

/// For each loop the least number of a step that stands, at all vectors of care, for what the last one does. On
/// what `solve` gave this is the number of sweeps that the loop needs on care, and at most the number of its cut
/// wires. It is 0 for a block that is no loop.
///
/// It leaves every earlier node its function, after a refusal too. For each w that is wide for care and the rails
/// of the steps, it adds at most `6 * w * gates * (gates + 2)` nodes, and `Full` comes only where so many more
/// would be over the limit.
///
/// The condition is that these are steps of the blocks' loops, kept in these diagrams, one entry for each, with as
/// many rails in each step as there are cut wires.
pub fn sweeps(
    alloc: Global,
    d: &mut Diagrams,
    solved: &Solved,
    blocks: &Blocks,
    care: Node,
) -> Result<SweepCounts, StoreFault>
    requires care { IsNodeOf d.old care }
    requires loops { AreLoopsToCount d.old blocks.now care solved.now }
    ensures counts { IfOk result (AreCountsOf d.old blocks.now care solved.now.loops) }
    ensures sweeps { (net : Parts) (cut : Cut) (v : Vectors) → AreBlocksOf net blocks.now → IsCutOf net cut →
        IsSolution net blocks.now cut d.old v solved.now →
        IfOk result (CountSweeps net blocks.now cut d.old v care) }
    ensures grows { GrowsWithin result d.old d.new NoOtherCause (IsWide d.old.vars (IsComparedIn d.old care solved.now.loops)) (6 * length blocks.now.home * (length blocks.now.home + 2)) }
{
    d.store().laws();
    let Ok(mut counts) = vec![in alloc; 0; blocks.list.items().len()] else {
        return Err(StoreFault::Memory);
    };
    for found in solved.loops.items() {
        let count = least_sweeps(alloc, d, care, found)?;
        counts[found.block as usize] = count;
    }
    Ok(SweepCounts {
        per_block: Items::of(counts),
    })
}
