//! The vectors on which the models of a care set hold.

ghost use Rattle.std.specs.Prelude.{◌≡◌, ◌-◌, ◌<◌, ◌≤◌, ◌*◌, Bool, List, length, map, All, IfOk, IfSome};
ghost use Rattle.bdd_store.specs.Arena.{den, IsNodeOf};
ghost use Rattle.bdd_store.specs.Growth.{GrowsWithin};
ghost use Rattle.cyc_base.specs.Values.{bits};
ghost use Rattle.dual_rail.specs.Rails.{AreRailsOf, values_of};
ghost use Rattle.dual_rail.specs.WorkingLists.{BoundsEach};
ghost use Rattle.care_sets.specs.Binding.{IsCareModel};
ghost use Rattle.care_sets.specs.Care.{holds_at, is_allowed, is_in_invariant};
ghost use Rattle.fixpoint.specs.Sweeping.{rails_at};
ghost use Rattle.fixpoint.specs.Working.{HasLargeCover, effort};
ghost use Rattle.diagram_decision.specs.Causes.{HasModelOver};
ghost use Rattle.diagram_decision.specs.Costs.{assume_effort, invariant_effort};
ghost use Rattle.diagram_decision.specs.Enough.{IsOfModel, BoundsModel};
ghost use Rattle.diagram_decision.specs.Sets.{model_of, ReadsWithin};

use bdd_ops::Diagrams;
use bdd_store::{Node, StoreFault};
use care_sets::Care;
use dual_rail::Rails;
use fixpoint::lift_gates;
use netlist::Netlist;
use std::alloc::{AllocError, Global};

/// The rails of these columns, where those from `first` on have the given rails.
fn inputs_of(
    alloc: Global,
    columns: &[u32],
    first: u32,
    rails: &[Rails],
) -> Result<Vec<Rails>, AllocError>
    requires columns { All (λ column. first ≤ column) columns.now }
    requires rails { All (λ column. column - first < length rails.now) columns.now }
    ensures { IfOk result (λ list. list.items ≡ map (λ column. rails_at rails.now (column - first)) columns.now) }
{
    columns
        .iter()
        .map(|column| rails[(*column - first) as usize])
        .collect(alloc)
}

/// The vectors on which a care model's output is 1, where the columns from `first` on have the given rails.
fn holds_on(
    alloc: Global,
    d: &mut Diagrams,
    model: &Netlist,
    columns: &[u32],
    first: u32,
    rails: &[Rails],
) -> Result<Node, StoreFault>
    requires model { IsCareModel (model_of model.now first columns.now) }
    requires columns { All (λ column. column - first < length rails.now) columns.now }
    requires rails { All (AreRailsOf d.old) rails.now }
    ensures node { IfOk result (IsNodeOf d.new) }
    ensures holds { IfOk result (λ node. (values v : List Bool) → values_of d.old rails.now v ≡ bits values → den d.new node v ≡ holds_at (model_of model.now first columns.now) values) }
    ensures grows { GrowsWithin result d.old d.new (HasLargeCover model.now) (BoundsEach d.old.vars (IsOfModel (model_of model.now first columns.now) (values_of d.old rails.now))) (2 * effort model.now) }
{
    let Ok(given) = inputs_of(alloc, columns, first, rails) else {
        return Err(StoreFault::Memory);
    };
    let wires = lift_gates(alloc, d, model, &given)?;
    let output = model.outputs()[0];
    Ok(wires[output.0 as usize].one)
}

/// The vectors on which the assumption holds, where its columns have these rails.
pub fn assume_on(
    alloc: Global,
    d: &mut Diagrams,
    care: &Care,
    rails: &[Rails],
) -> Result<Node, StoreFault>
    requires reads { IfSome care.now.assume (ReadsWithin 0 (length rails.now)) }
    requires rails { All (AreRailsOf d.old) rails.now }
    ensures node { IfOk result (IsNodeOf d.new) }
    ensures allowed { IfOk result (λ node. (values v : List Bool) → values_of d.old rails.now v ≡ bits values → den d.new node v ≡ is_allowed care.now values) }
    ensures grows { GrowsWithin result d.old d.new (HasModelOver care.now) (BoundsModel care.now.assume d.old.vars (values_of d.old rails.now)) (2 * assume_effort care.now) }
{
    let Some(model) = care.assume() else {
        return Ok(Node::of(true));
    };
    holds_on(alloc, d, model, care.assume_columns(), 0, rails)
}

/// The vectors on which the invariant holds of a state, where the latches have these rails. `first` is the
/// column of the first latch.
pub fn invariant_on(
    alloc: Global,
    d: &mut Diagrams,
    care: &Care,
    first: u32,
    latches: &[Rails],
) -> Result<Node, StoreFault>
    requires reads { IfSome care.now.invariant (ReadsWithin first (length latches.now)) }
    requires rails { All (AreRailsOf d.old) latches.now }
    ensures node { IfOk result (IsNodeOf d.new) }
    ensures inside { IfOk result (λ node. (state v : List Bool) → values_of d.old latches.now v ≡ bits state → den d.new node v ≡ is_in_invariant care.now state) }
    ensures grows { GrowsWithin result d.old d.new (HasModelOver care.now) (BoundsModel care.now.invariant d.old.vars (values_of d.old latches.now)) (2 * invariant_effort care.now) }
{
    let Some(model) = care.invariant() else {
        return Ok(Node::of(true));
    };
    holds_on(alloc, d, model, care.invariant_columns(), first, latches)
}
