//! Literals that say whether the models of a care set hold.

ghost use Rattle.std.specs.Prelude.{◌≡◌, ◌≤◌, ◌-◌, ◌<◌, ◌*◌, true, length, map, replicate, All, IfOk, IfSome};
ghost use Rattle.netlist.specs.Netlists.{IsNetlist};
ghost use Rattle.netlist.specs.Walks.{IsLoopFree};
ghost use Rattle.care_sets.specs.Care.{is_allowed, is_in_invariant};
ghost use Rattle.clause_formulas.specs.Formulas.{IsFormula};
ghost use Rattle.ternary_clauses.specs.Rails.{AreWithin, rails_at};
ghost use Rattle.clause_decision.specs.Formulas.{accepts, ReadsWithin, SaysTest};

use care_sets::Care;
use clause_formulas::Formula;
use netlist::Netlist;
use std::alloc::{AllocError, Global};
use ternary_clauses::{ClausesFault, Rails, add_netlist};

/// The literal that is true in each model.
const TRUE: u32 = 0;

/// The rails of these columns, where those from `first` on have the given rails.
fn rails_of(
    alloc: Global,
    columns: &[u32],
    first: u32,
    rails: &[Rails],
) -> Result<Vec<Rails>, AllocError>
    requires columns { All (λ column. first ≤ column) columns.now }
    requires rails { All (λ column. column - first < length rails.now) columns.now }
    ensures { IfOk result (λ list. list.items ≡ map (λ column. rails_at rails.now (column - first)) columns.now) }
{
    columns
        .iter()
        .map(|column| rails[(*column - first) as usize])
        .collect(alloc)
}

/// A mark for each gate.
fn all_gates(alloc: Global, net: &Netlist) -> Result<Vec<bool>, AllocError>
    ensures marks { IfOk result (λ marks. marks.items ≡ replicate (length net.now.gates) true) }
    ensures valid { IsNetlist net.now }
{
    vec![in alloc; true; net.gates() as usize]
}

/// Adds a model without loops and latches, whose inputs have these rails. The answer is a literal that says whether its
/// output is 1. Its gates have a variable each, since no Boolean vector leaves one unknown.
pub(crate) fn add_model(
    alloc: Global,
    formula: &mut Formula,
    model: &Netlist,
    given: &[Rails],
) -> Result<u32, ClausesFault>
    requires formula { IsFormula formula.old }
    requires latches { length model.now.latches ≡ 0 }
    requires outputs { length model.now.outputs ≡ 1 }
    requires free { IsLoopFree model.now }
    requires given { All (AreWithin formula.old.variables) given.now }
    requires width { length given.now ≡ length model.now.inputs }
    ensures { IfOk result (SaysTest formula.old formula.new given.now (accepts model.now)) }
{
    let all = all_gates(alloc, model)?;
    let rails = add_netlist(alloc, formula, model, given, &all, &all)?;
    let output = model.outputs()[0];
    Ok(rails[output.0 as usize].one)
}

/// Adds the assumption, where the columns have these rails. The answer is a literal that says whether it holds.
pub(crate) fn add_assumption(
    alloc: Global,
    formula: &mut Formula,
    care: &Care,
    rails: &[Rails],
) -> Result<u32, ClausesFault>
    requires formula { IsFormula formula.old }
    requires reads { IfSome care.now.assume (ReadsWithin 0 (length rails.now)) }
    requires rails { All (AreWithin formula.old.variables) rails.now }
    ensures { IfOk result (SaysTest formula.old formula.new rails.now (is_allowed care.now)) }
{
    let Some(model) = care.assume() else {
        return Ok(TRUE);
    };
    let given = rails_of(alloc, care.assume_columns(), 0, rails)?;
    add_model(alloc, formula, model, &given)
}

/// Adds the invariant, where the latches have these rails. The answer is a literal that says whether it holds. `first` is
/// the column of the first latch.
pub(crate) fn add_invariant(
    alloc: Global,
    formula: &mut Formula,
    care: &Care,
    first: u32,
    latches: &[Rails],
) -> Result<u32, ClausesFault>
    requires formula { IsFormula formula.old }
    requires reads { IfSome care.now.invariant (ReadsWithin first (length latches.now)) }
    requires rails { All (AreWithin formula.old.variables) latches.now }
    ensures { IfOk result (SaysTest formula.old formula.new latches.now (is_in_invariant care.now)) }
{
    let Some(model) = care.invariant() else {
        return Ok(TRUE);
    };
    let given = rails_of(alloc, care.invariant_columns(), first, latches)?;
    add_model(alloc, formula, model, &given)
}
