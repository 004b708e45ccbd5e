//! The care vectors as a node.

ghost use Rattle.std.specs.Prelude.{◌≡◌, IfOk};
ghost use Rattle.netlist.specs.Netlists.{columns};
ghost use Rattle.bdd_store.specs.Growth.{GrowsWithin};
ghost use Rattle.dual_rail.specs.WorkingLists.{IsWide};
ghost use Rattle.loops.specs.Looped.{IsLooped};
ghost use Rattle.fixpoint.specs.Columns.{AreColumns};
ghost use Rattle.care_sets.specs.Binding.{IsCareOf};
ghost use Rattle.care_sets.specs.Care.{is_care_vector};
ghost use Rattle.diagram_decision.specs.Causes.{HasModelOver};
ghost use Rattle.equal.specs.Comparisons.{care_cost, IsLaidBy};
ghost use Rattle.equal.specs.Sets.{TellsBy};

use crate::comparison::Comparison;
use bdd_ops::Diagrams;
use bdd_store::{Node, StoreFault};
use diagram_decision::{assume_on, invariant_on};
use dual_rail::Rails;
use std::alloc::Global;

/// The care vectors, where the columns have these rails.
pub(crate) fn care_on(
    alloc: Global,
    d: &mut Diagrams,
    comparison: &Comparison<'_>,
    rails: &[Rails],
) -> Result<Node, StoreFault>
    requires care { IsCareOf comparison.now.looped.now.net comparison.now.care.now }
    requires vars { d.old.vars ≡ columns comparison.now.looped.now.net }
    requires columns { AreColumns d.old comparison.now.order.now rails.now }
    ensures told { IfOk result (λ set. TellsBy comparison.now.order.now d.new set (is_care_vector comparison.now.looped.now.net comparison.now.care.now)) }
    ensures looped { IsLooped comparison.now.looped.now }
    ensures grows { GrowsWithin result d.old d.new (HasModelOver comparison.now.care.now) (IsWide (columns comparison.now.looped.now.net) (IsLaidBy comparison.now.order.now comparison.now.looped.now.net comparison.now.care.now)) (care_cost comparison.now.care.now) }
{
    let first = comparison.looped.net().inputs();
    let latches = &rails[first as usize..];
    let inside = invariant_on(alloc, d, comparison.care, first, latches)?;
    let allowed = assume_on(alloc, d, comparison.care, rails)?;
    d.and(inside, allowed)
}
