//! The least care vector on which the wires of some pair differ.

ghost use Rattle.std.specs.Prelude.{◌≡◌, ◌≤◌, ◌⊎◌, IfOk, IfErr, option_map};
ghost use Rattle.netlist.specs.Netlists.{columns};
ghost use Rattle.bdd_store.specs.Growth.{GrowsWithin, NoOtherCause};
ghost use Rattle.dual_rail.specs.WorkingLists.{IsWide};
ghost use Rattle.care_sets.specs.Binding.{IsCareOf};
ghost use Rattle.care_sets.specs.Care.{is_care_vector};
ghost use Rattle.fixpoint.specs.Columns.{AreColumns};
ghost use Rattle.diagram_decision.specs.Causes.{IsOutOfNodes};
ghost use Rattle.equal.specs.Comparisons.{AddsInComparison, IsBelowEnoughFor, IsFullFor, IsLaidBy, pairs_cost, whole_cost};
ghost use Rattle.miters.specs.Pairs.{least_apart as least_apart_of};
ghost use Rattle.equal.specs.Sets.{AreFixedBy, TellsBy};

use crate::caring::care_on;
use crate::comparison::Comparison;
use crate::parting::least_of_pairs;
use bdd_ops::Diagrams;
use bdd_store::StoreFault;
use cyc_base::{Bits, MAX_NODES};
use diagram_decision::{Fixpoint, solve_beside};
use dual_rail::Rails;
use fixpoint::column_rails;
use std::alloc::Global;
use verdict::DecideFault;

/// The least care vector on which the wires of some pair differ, where the netlist is solved and the care vectors are kept
/// beside it.
fn compare_solved(
    alloc: Global,
    d: &mut Diagrams,
    comparison: &Comparison<'_>,
    found: &Fixpoint,
) -> Result<Option<Vec<bool>>, StoreFault>
    requires vars { d.old.vars ≡ columns comparison.now.looped.now.net }
    requires fixed { AreFixedBy comparison.now.order.now comparison.now.looped.now.net d.old found.now.rails }
    requires set { TellsBy comparison.now.order.now d.old found.now.set (is_care_vector comparison.now.looped.now.net comparison.now.care.now) }
    ensures found { IfOk result (λ vector. option_map (λ v. v.items) vector ≡ least_apart_of comparison.now.looped.now.net comparison.now.care.now comparison.now.pairs.now) }
    ensures grows { GrowsWithin result d.old d.new NoOtherCause (IsWide (columns comparison.now.looped.now.net) (IsLaidBy comparison.now.order.now comparison.now.looped.now.net comparison.now.care.now)) (pairs_cost comparison.now.pairs.now) }
{
    least_of_pairs(
        alloc,
        d,
        comparison.order,
        found.set,
        found.rails.items(),
        comparison.pairs,
    )
}

/// The same, where the netlist is solved here on these rails of its columns.
fn compare_columns(
    alloc: Global,
    d: &mut Diagrams,
    comparison: &Comparison<'_>,
    rails: &[Rails],
) -> Result<Option<Vec<bool>>, StoreFault>
    requires care { IsCareOf comparison.now.looped.now.net comparison.now.care.now }
    requires vars { d.old.vars ≡ columns comparison.now.looped.now.net }
    requires columns { AreColumns d.old comparison.now.order.now rails.now }
    ensures found { IfOk result (λ vector. option_map (λ v. v.items) vector ≡ least_apart_of comparison.now.looped.now.net comparison.now.care.now comparison.now.pairs.now) }
    ensures vars { d.new.vars ≡ d.old.vars }
    ensures limit { d.new.limit ≡ d.old.limit }
    ensures adds { AddsInComparison result d.old d.new comparison.now.order.now comparison.now.looped.now.net comparison.now.care.now (whole_cost comparison.now.looped.now.net comparison.now.care.now comparison.now.pairs.now) }
{
    let set = care_on(alloc, d, comparison, rails)?;
    d.store().laws();
    let found = solve_beside(alloc, d, comparison.looped, rails, set)?;
    compare_solved(alloc, d, comparison, &found)
}

/// The same on diagrams that have a variable for each column and no nodes.
fn compare_on(
    alloc: Global,
    d: &mut Diagrams,
    comparison: &Comparison<'_>,
) -> Result<Option<Vec<bool>>, StoreFault>
    requires care { IsCareOf comparison.now.looped.now.net comparison.now.care.now }
    requires vars { d.old.vars ≡ columns comparison.now.looped.now.net }
    ensures found { IfOk result (λ vector. option_map (λ v. v.items) vector ≡ least_apart_of comparison.now.looped.now.net comparison.now.care.now comparison.now.pairs.now) }
    ensures full { result ≡ Err StoreFault.Full → IsFullFor d.old d.new comparison.now.order.now comparison.now.looped.now.net comparison.now.care.now comparison.now.pairs.now }
{
    let rails = column_rails(alloc, d, comparison.order)?;
    compare_columns(alloc, d, comparison, &rails)
}

/// The least care vector on which the wires of some pair have different values in the fixpoint, one of them 1 and the
/// other 0, or none where there is no such vector. It starts the diagrams anew, with a variable for each column and the
/// limit. The columns are laid on the variables in the given order; the vector is least by column all the same.
///
/// `NodeLimit` carries the limit, and comes only where the diagrams hold as many nodes as the call ends, or a cover of the
/// netlist or of a care model has more. It never comes at a limit of at least
/// `16 * w * (G + 2) * (E + V + 4) + 8 * w * P` for P pairs, for each w that is wide for the functions of the comparison,
/// laid on the variables in that order: G are the gates of the netlist and of both care models, E is their effort, and V
/// is the number of columns. Nothing more is said of the diagrams after the call.
///
/// The condition is that the care set is the netlist's, and that the limit is at most 50,000,000.
pub(crate) fn least_apart(
    alloc: Global,
    d: &mut Diagrams,
    comparison: &Comparison<'_>,
    limit: u32,
) -> Result<Option<Bits>, DecideFault>
    requires care { IsCareOf comparison.now.looped.now.net comparison.now.care.now }
    requires limit { limit ≤ MAX_NODES }
    ensures found { IfOk result (λ vector. vector ≡ least_apart_of comparison.now.looped.now.net comparison.now.care.now comparison.now.pairs.now) }
    ensures fault { IfErr result (λ fault. (fault ≡ DecideFault.Memory) ⊎ (fault ≡ DecideFault.NodeLimit limit)) }
    ensures cause { result ≡ Err (DecideFault.NodeLimit limit) → IsOutOfNodes d.new comparison.now.looped.now.net comparison.now.care.now limit }
    ensures below { result ≡ Err (DecideFault.NodeLimit limit) → IsBelowEnoughFor comparison.now.order.now comparison.now.looped.now.net comparison.now.care.now comparison.now.pairs.now limit }
{
    if d.start(comparison.looped.net().columns(), limit).is_err() {
        return Err(DecideFault::Memory);
    }
    match compare_on(alloc, d, comparison) {
        Ok(Some(vector)) => Ok(Some(Bits::of(vector))),
        Ok(None) => Ok(None),
        Err(StoreFault::Full) => Err(DecideFault::NodeLimit { nodes: limit }),
        Err(StoreFault::Memory) => Err(DecideFault::Memory),
    }
}
