//! One loop, sweep by sweep from its cut wires until they stand still.

ghost use Rattle.std.specs.Prelude.{◌≡◌, ◌<◌, ◌≤◌, ◌+◌, ◌*◌, ◌↔◌, ℕ, true, length, map, filter, take, All, Contains, IfOk, OnOk};
ghost use Rattle.bdd_store.specs.Arena.{Arena};
ghost use Rattle.bdd_store.specs.Growth.{KeepsNodes, GrowsWithin};
ghost use Rattle.dual_rail.specs.Rails.{AreRailsOf};
ghost use Rattle.loops.specs.Blocks.{block_at, home_of};
ghost use Rattle.loops.specs.Cuts.{is_cut};
ghost use Rattle.loops.specs.Sweeps.{first_gate};
ghost use Rattle.fixpoint.specs.Solved.{Vectors, IsLoopAt, AreStepsOf};
ghost use Rattle.fixpoint.specs.Working.{IsWidth, HasLargeCover, order_cost, block_cost};
ghost use Rattle.fixpoint.specs.Plans.{IsPlan, IsPlanOf};
ghost use Rattle.fixpoint.specs.Underway.{IsUnderway, IsSweptOnce};
ghost use Rattle.fixpoint.specs.Sweeping.{States, after_sweeps, rails_at, vectors, AreWires, IsSolvedBelow, AreFresh, IsSweepable, AreSwept};

use crate::solved::SweptLoop;
use crate::wires::Wires;
use bdd_ops::Diagrams;
use bdd_store::StoreFault;
use cyc_base::Items;
use dual_rail::Rails;
use loops::{Cut, LoopedNetlist};
use std::alloc::{AllocError, Global};

/// What a loop is swept by.
#[derive(Drop)]
pub struct LoopPlan {
    /// Its gates, each after those that it reads and that are no cut wires.
    pub(crate) order: Items<u32>,
    /// Its cut wires, in flat order.
    pub(crate) cuts: Items<u32>,
}

/// The gates of the block at a place.
pub(crate) fn gates_of<'a>(looped: &LoopedNetlist<'a>, place: usize) -> &'a [u32]
    requires { place < length looped.now.blocks.list }
    ensures gates { result.now ≡ (block_at looped.now.blocks place).gates }
    ensures some { 0 < length result.now }
    ensures home { All (λ n. (n < length looped.now.net.gates) × (home_of looped.now.blocks n ≡ place)) result.now }
{
    looped.blocks().list.items()[place].gates.items()
}

/// The cut wires among these gates.
fn cuts_among(alloc: Global, cut: &Cut, gates: &[u32]) -> Result<Vec<u32>, AllocError>
    requires { All (λ n. n < length cut.now.wires) gates.now }
    ensures { IfOk result (λ cuts. cuts.items ≡ filter (is_cut cut.now.wires) gates.now) }
{
    let wires = cut.wires.items();
    gates
        .iter()
        .copied()
        .filter(|gate| wires[*gate as usize])
        .collect(alloc)
}

/// The order and the cut wires of a loop.
fn plan_loop(alloc: Global, looped: &LoopedNetlist<'_>, place: u32) -> Result<LoopPlan, AllocError>
    requires { IsLoopAt looped.now.blocks place }
    ensures { IfOk result (IsPlanOf looped.now place) }
{
    let gates = gates_of(looped, place as usize);
    let cuts = cuts_among(alloc, looped.cut(), gates)?;
    let order = looped.order_of_block(alloc, place)?;
    Ok(LoopPlan {
        order: Items::of(order),
        cuts: Items::of(cuts),
    })
}

/// The cut wires as they were before the sweep.
fn step_of(alloc: Global, cuts: &[u32], before: &[Rails]) -> Result<Vec<Rails>, AllocError>
    requires { All (λ n. n < length before.now) cuts.now }
    ensures { IfOk result (λ step. step.items ≡ map (rails_at before.now) cuts.now) }
{
    cuts.iter()
        .map(|gate| before[*gate as usize])
        .collect(alloc)
}

impl Wires {
    /// Sets the gates of a loop one after another. Each reads cut wires as they were before the sweep, and other
    /// wires as they are.
    fn sweep(
        &mut self,
        alloc: Global,
        d: &mut Diagrams,
        looped: &LoopedNetlist<'_>,
        order: &[u32],
    ) -> Result<(), StoreFault>
        requires order { All (λ n. n < length looped.now.net.gates) order.now }
        requires wires { AreWires looped.now.net d.old self.old.before.items self.old.rails.items }
        ensures swept { (b : ℕ) (v : Vectors) (c : States) →
            IsSweepable looped.now d.old v c b order.now self.old.before.items self.old.rails.items →
            OnOk result (AreSwept looped.now d.new v c (λ n. home_of looped.now.blocks n ≡ b) self.new.rails.items) }
        ensures solved { (b : ℕ) (v : Vectors) (c : States) →
            IsSweepable looped.now d.old v c b order.now self.old.before.items self.old.rails.items →
            OnOk result (IsSolvedBelow looped.now d.new v b self.old.before.items self.new.rails.items) }
        ensures given { OnOk result (take (first_gate looped.now.net) self.new.rails.items ≡ take (first_gate looped.now.net) self.old.rails.items) }
        ensures wires { OnOk result (AreWires looped.now.net d.new self.new.before.items self.new.rails.items) }
        ensures before { self.new.before.items ≡ self.old.before.items }
        ensures keeps { KeepsNodes d.old d.new }
        ensures grows { (b k : ℕ) (v : Vectors) →
            IsSweepable looped.now d.old v (after_sweeps looped.now v k) b order.now self.old.before.items self.old.rails.items →
            k ≤ length (filter (is_cut looped.now.cut.wires) (block_at looped.now.blocks b).gates) →
            GrowsWithin result d.old d.new (HasLargeCover looped.now.net) (IsWidth d.old.vars looped.now v) (2 * order_cost looped.now.net order.now) }
    {
        for gate in order {
            self.set_gate(alloc, d, looped, *gate)?;
        }
        Ok(())
    }

    /// Whether a sweep left these cut wires as they were: equal functions have equal nodes.
    fn are_still(&self, cuts: &[u32], first: usize) -> bool
        requires cuts { All (λ n. n < length self.now.before.items) cuts.now }
        requires width { length self.now.rails.items ≡ first + length self.now.before.items }
        ensures { (result ≡ true) ↔ ((n : ℕ) → Contains cuts.now n → rails_at self.now.before.items n ≡ rails_at self.now.rails.items (first + n)) }
    {
        for gate in cuts {
            if self.before[*gate as usize] != self.rails[first + *gate as usize] {
                return false;
            }
        }
        true
    }

    /// Keeps these cut wires for the next sweep.
    fn keep_cuts(&mut self, cuts: &[u32], first: usize)
        requires cuts { All (λ n. n < length self.old.before.items) cuts.now }
        requires width { length self.old.rails.items ≡ first + length self.old.before.items }
        ensures kept { (n : ℕ) → Contains cuts.now n → rails_at self.new.before.items n ≡ rails_at self.old.rails.items (first + n) }
        ensures others { (n : ℕ) → ¬ Contains cuts.now n → rails_at self.new.before.items n ≡ rails_at self.old.before.items n }
        ensures rails { self.new.rails.items ≡ self.old.rails.items }
        ensures width { length self.new.before.items ≡ length self.old.before.items }
        ensures proper { (a : Arena) → All (AreRailsOf a) self.old.rails.items → All (AreRailsOf a) self.old.before.items → All (AreRailsOf a) self.new.before.items }
    {
        for gate in cuts {
            self.before[*gate as usize] = self.rails[first + *gate as usize];
        }
    }

    /// Sweeps a loop once more, and puts its cut wires as they were before among its steps. The answer is whether the sweep
    /// left them so; else they are kept for the next sweep.
    fn sweep_once(
        &mut self,
        alloc: Global,
        d: &mut Diagrams,
        looped: &LoopedNetlist<'_>,
        plan: &LoopPlan,
        steps: &mut Vec<Items<Rails>>,
    ) -> Result<bool, StoreFault>
        requires plan { IsPlan looped.now.net plan.now }
        requires wires { AreWires looped.now.net d.old self.old.before.items self.old.rails.items }
        ensures wires { OnOk result (AreWires looped.now.net d.new self.new.before.items self.new.rails.items) }
        ensures given { OnOk result (take (first_gate looped.now.net) self.new.rails.items ≡ take (first_gate looped.now.net) self.old.rails.items) }
        ensures swept { (b : ℕ) (v : Vectors) → IsPlanOf looped.now b plan.now →
            IsUnderway looped.now d.old v b plan.now.cuts steps.old.items self.old.before.items self.old.rails.items →
            IfOk result (λ still. IsSweptOnce looped.now d.new v b plan.now.cuts steps.new.items self.new.before.items self.new.rails.items still) }
        ensures longer { OnOk result (length steps.new.items ≡ length steps.old.items + 1) }
        ensures grows { (b : ℕ) (v : Vectors) → IsPlanOf looped.now b plan.now →
            IsUnderway looped.now d.old v b plan.now.cuts steps.old.items self.old.before.items self.old.rails.items →
            GrowsWithin result d.old d.new (HasLargeCover looped.now.net) (IsWidth d.old.vars looped.now v) (2 * order_cost looped.now.net plan.now.order) }
    {
        let first = looped.net().columns() as usize;
        let cuts = plan.cuts.items();
        let step = step_of(alloc, cuts, &self.before)?;
        steps.push(Items::of(step))?;
        self.sweep(alloc, d, looped, plan.order.items())?;
        d.store().laws();
        if self.are_still(cuts, first) {
            return Ok(true);
        }
        self.keep_cuts(cuts, first);
        Ok(false)
    }
}

/// Sweeps a loop until its cut wires stand still.
pub(crate) fn solve_loop(
    alloc: Global,
    d: &mut Diagrams,
    looped: &LoopedNetlist<'_>,
    place: u32,
    wires: &mut Wires,
) -> Result<SweptLoop, StoreFault>
    requires at { IsLoopAt looped.now.blocks place }
    requires solved { IsSolvedBelow looped.now d.old (vectors looped.now.net d.old wires.old.rails.items) place wires.old.before.items wires.old.rails.items }
    requires fresh { AreFresh looped.now place wires.old.before.items }
    ensures steps { IfOk result (AreStepsOf looped.now.net looped.now.blocks looped.now.cut d.new (vectors looped.now.net d.old wires.old.rails.items)) }
    ensures block { IfOk result (λ steps. steps.block ≡ place) }
    ensures solved { OnOk result (IsSolvedBelow looped.now d.new (vectors looped.now.net d.old wires.old.rails.items) (place + 1) wires.new.before.items wires.new.rails.items) }
    ensures fresh { OnOk result (AreFresh looped.now (place + 1) wires.new.before.items) }
    ensures given { OnOk result (take (first_gate looped.now.net) wires.new.rails.items ≡ take (first_gate looped.now.net) wires.old.rails.items) }
    ensures grows { GrowsWithin result d.old d.new (HasLargeCover looped.now.net) (IsWidth d.old.vars looped.now (vectors looped.now.net d.old wires.old.rails.items))
        (2 * ((length looped.now.net.gates + 1) * block_cost looped.now.net looped.now.blocks place)) }
{
    let plan = plan_loop(alloc, looped, place)?;
    let mut steps = Vec::new(alloc);
    loop {
        let still = wires.sweep_once(alloc, d, looped, &plan, &mut steps)?;
        if still {
            return Ok(SweptLoop {
                block: place,
                cuts: plan.cuts,
                steps: Items::of(steps),
            });
        }
    }
}
