//! Netlists that are solved on rails, beside a set of vectors that is kept.

ghost use Rattle.std.specs.Prelude.{◌≡◌, ◌+◌, ◌*◌, Some, length, map, All, IfOk};
ghost use Rattle.bdd_store.specs.Arena.{root_at, IsNodeOf};
ghost use Rattle.bdd_store.specs.Growth.{AddsWithin};
ghost use Rattle.dual_rail.specs.Rails.{AreRailsOf, values_of};
ghost use Rattle.dual_rail.specs.WorkingLists.{IsWide};
ghost use Rattle.loops.specs.Cuts.{loops_by};
ghost use Rattle.loops.specs.Sweeps.{first_gate};
ghost use Rattle.fixpoint.specs.Kept.{rails_under, AreKept, GainsRoots};
ghost use Rattle.fixpoint.specs.Working.{IsWorking, HasLargeCover, effort};
ghost use Rattle.diagram_decision.specs.Solving.{IsFixpointOn};

use bdd_ops::Diagrams;
use bdd_store::{Node, Root, StoreFault};
use cyc_base::Items;
use dual_rail::Rails;
use fixpoint::{KeptRails, Solved, keep_rails, rails_of, solve};
use loops::LoopedNetlist;
use std::alloc::{AllocError, Global};

/// Rails and a set of vectors, kept as roots.
#[derive(Drop)]
pub struct KeptRoots {
    pub rails: Vec<KeptRails>,
    pub set: Root,
}

/// A netlist's fixpoint, and a set of vectors that was kept beside it.
pub struct Fixpoint {
    pub solved: Solved,
    /// The rails of all signals.
    pub rails: Items<Rails>,
    pub set: Node,
}

impl Drop for Fixpoint {
    fn drop(self) {
        let Fixpoint {
            solved: _,
            rails: _,
            set: _,
        } = self;
    }
}

/// Keeps rails and a set.
fn keep_roots(
    alloc: Global,
    d: &mut Diagrams,
    rails: &[Rails],
    set: Node,
) -> Result<KeptRoots, AllocError>
    requires rails { All (AreRailsOf d.old) rails.now }
    requires set { IsNodeOf d.old set }
    ensures keys { IfOk result (λ kept. All (AreKept d.new) kept.rails.items) }
    ensures rails { IfOk result (λ kept. map (rails_under d.new) kept.rails.items ≡ rails.now) }
    ensures set { IfOk result (λ kept. root_at d.new kept.set.key ≡ Some set) }
    ensures gains { GainsRoots d.old d.new }
{
    let root = d.keep(set)?;
    let kept = keep_rails(alloc, d, rails)?;
    Ok(KeptRoots {
        rails: kept,
        set: root,
    })
}

/// The fixpoint of a netlist on these rails of its inputs and latches. The set of vectors stays; of other nodes only
/// the constants mean anything after the call.
pub fn solve_beside(
    alloc: Global,
    d: &mut Diagrams,
    looped: &LoopedNetlist<'_>,
    given: &[Rails],
    set: Node,
) -> Result<Fixpoint, StoreFault>
    requires width { length given.now ≡ first_gate looped.now.net }
    requires rails { All (AreRailsOf d.old) given.now }
    requires set { IsNodeOf d.old set }
    ensures fixpoint { IfOk result (IsFixpointOn looped.now d.old d.new given.now set) }
    ensures vars { d.new.vars ≡ d.old.vars }
    ensures limit { d.new.limit ≡ d.old.limit }
    ensures adds { AddsWithin result d.old d.new (HasLargeCover looped.now.net) (IsWide d.old.vars (IsWorking looped.now.net (loops_by looped.now.blocks looped.now.cut) (values_of d.old given.now))) (10 * (length looped.now.net.gates + 2) * effort looped.now.net) }
{
    d.store().laws();
    let KeptRoots { rails, set: root } = keep_roots(alloc, d, given, set)?;
    let net = looped.net();
    let blocks = looped.blocks();
    let cut = looped.cut();
    let solved = solve(alloc, d, net, blocks, cut, rails)?;
    let rails = rails_of(alloc, d, solved.rails.items())?;
    Ok(Fixpoint {
        solved,
        rails: Items::of(rails),
        set: d.root(&root),
    })
}
