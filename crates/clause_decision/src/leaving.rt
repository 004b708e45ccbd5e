//! Care vectors whose next state leaves the invariant.

ghost use Rattle.std.specs.Prelude.{◌≡◌, ◌≤◌, ◌-◌, ◌<◌, length, option_map, IfOk, Some};
ghost use Rattle.netlist.specs.Netlists.{count, columns as columns_of};
ghost use Rattle.care_sets.specs.Binding.{IsCareOf};
ghost use Rattle.clause_queries.specs.Vectors.{IsFirstOf};
ghost use Rattle.clause_decision.specs.Loads.{HasLoads};
ghost use Rattle.refusals.specs.Tests.{LoadsAreKnown};
ghost use Rattle.clause_decision.specs.NextStates.{load_rails, loads_rails, AreLatchColumns};
ghost use Rattle.clause_decision.specs.Questions.{IsQuestionOf};
ghost use Rattle.clause_decision.specs.Scopes.{IsScopeOf};
ghost use Rattle.refusals.specs.Tests.{is_leaving};

use crate::care::ones;
use crate::cones::cone_of;
use crate::models::add_model;
use crate::question::{Question, ask_least};
use crate::scope::Scope;
use care_sets::Care;
use clause_formulas::negation;
use clause_queries::Found;
use netlist::Netlist;
use std::alloc::{AllocError, Global};
use ternary_clauses::{ClausesFault, Rails};

/// The rails of what the latch of a column loads.
fn load_of(net: &Netlist, rails: &[Rails], column: u32) -> Rails
    requires first { length net.now.inputs ≤ column }
    requires column { column - length net.now.inputs < length net.now.latches }
    requires width { length rails.now ≡ count net.now }
    ensures { result ≡ load_rails net.now rails.now column }
{
    let latch = net.latch(column - net.inputs());
    rails[latch.from.0 as usize]
}

/// The rails of what the latches of these columns load.
fn loads_of(
    alloc: Global,
    net: &Netlist,
    rails: &[Rails],
    columns: &[u32],
) -> Result<Vec<Rails>, AllocError>
    requires columns { AreLatchColumns net.now columns.now }
    requires width { length rails.now ≡ count net.now }
    ensures { IfOk result (λ list. list.items ≡ loads_rails net.now rails.now columns.now) }
{
    columns
        .iter()
        .map(|column| load_of(net, rails, *column))
        .collect(alloc)
}

/// The question at which care vectors the next state isn't in the invariant, which has this model.
fn leaving_question(
    alloc: Global,
    net: &Netlist,
    care: &Care,
    scope: &Scope,
    invariant: &Netlist,
) -> Result<Question, ClausesFault>
    requires care { IsCareOf net.now care.now }
    requires scope { IsScopeOf net.now scope.now }
    requires loads { HasLoads net.now care.now scope.now }
    requires known { LoadsAreKnown net.now care.now }
    requires invariant { Some invariant.now ≡ option_map (λ model. model.net) care.now.invariant }
    ensures { IfOk result (IsQuestionOf (columns_of net.now) (is_leaving net.now care.now)) }
{
    let mut cone = cone_of(alloc, net, care, scope)?;
    let width = net.columns() as usize;
    let columns = ones(alloc, &cone.rails[..width])?;
    let loads = loads_of(alloc, net, &cone.rails, care.invariant_columns())?;
    let stays = add_model(alloc, &mut cone.formula, invariant, &loads)?;
    let assumed = vec![in alloc; cone.inside, cone.allowed, negation(stays)]?;
    Ok(Question {
        formula: cone.into_formula(),
        columns,
        assumed,
    })
}

/// The least care vector whose next state isn't in the invariant. The solver gives up after so many conflicts in one of
/// its searches, or where its clauses are too many.
///
/// The condition is that the care set and the scope are the netlist's, that the scope has the gates that drive the
/// latches which the invariant reads, and that on care what the latches load is known.
pub fn least_leaving(
    alloc: Global,
    net: &Netlist,
    care: &Care,
    scope: &Scope,
    conflicts: u64,
) -> Result<Found, AllocError>
    requires care { IsCareOf net.now care.now }
    requires scope { IsScopeOf net.now scope.now }
    requires loads { HasLoads net.now care.now scope.now }
    requires known { LoadsAreKnown net.now care.now }
    ensures { IfOk result (IsFirstOf (is_leaving net.now care.now) (columns_of net.now)) }
{
    let Some(invariant) = care.invariant() else {
        return Ok(Found::NoVector);
    };
    match leaving_question(alloc, net, care, scope, invariant) {
        Ok(question) => ask_least(alloc, &question, conflicts),
        Err(ClausesFault::TooMany) => Ok(Found::Unknown),
        Err(ClausesFault::Memory) => Err(AllocError),
    }
}
