//! Initial states outside the invariant.

ghost use Rattle.std.specs.Prelude.{◌≡◌, ◌∷◌, ◌++◌, length, IfOk, OnOk};
ghost use Rattle.clause_formulas.specs.Formulas.{negation as negation_of};
ghost use Rattle.care_sets.specs.Binding.{IsCareOf};
ghost use Rattle.clause_queries.specs.Vectors.{IsFirstOf};
ghost use Rattle.clause_decision.specs.Questions.{IsQuestionOf};
ghost use Rattle.clause_decision.specs.Starts.{asked_of, asked_starts};
ghost use Rattle.refusals.specs.Tests.{is_outside};

use crate::care::ones;
use crate::models::add_invariant;
use crate::question::{Question, ask_least};
use care_sets::Care;
use clause_formulas::{Formula, negation};
use clause_queries::Found;
use netlist::{Init, Netlist};
use std::alloc::{AllocError, Global};
use ternary_clauses::{ClausesFault, Rails, add_columns};

/// What an init asks of its latch.
fn ask_start(init: Init, latch: Rails, assumed: &mut Vec<u32>) -> Result<(), AllocError>
    ensures { OnOk result (assumed.new.items ≡ assumed.old.items ++ asked_of init latch) }
{
    match init {
        Init::Zero => assumed.push(latch.zero)?,
        Init::One => assumed.push(latch.one)?,
        Init::Either => (),
    }
    Ok(())
}

/// Adds what the inits ask of the latches, which have these rails.
fn ask_starts(net: &Netlist, latches: &[Rails], assumed: &mut Vec<u32>) -> Result<(), AllocError>
    requires { length latches.now ≡ length net.now.latches }
    ensures { OnOk result (assumed.new.items ≡ assumed.old.items ++ asked_starts net.now.latches latches.now) }
{
    for latch in 0..net.latches() {
        ask_start(net.latch(latch).init, latches[latch as usize], assumed)?;
    }
    Ok(())
}

/// The literals that are true of a state that the inits permit, where the one for the invariant is false.
fn assume_outside(
    alloc: Global,
    net: &Netlist,
    latches: &[Rails],
    inside: u32,
) -> Result<Vec<u32>, AllocError>
    requires { length latches.now ≡ length net.now.latches }
    ensures { IfOk result (λ assumed. assumed.items ≡ negation_of inside ∷ asked_starts net.now.latches latches.now) }
{
    let mut assumed = vec![in alloc; negation(inside)]?;
    ask_starts(net, latches, &mut assumed)?;
    Ok(assumed)
}

/// The question which states that the inits permit are outside the invariant.
fn outside_question(alloc: Global, net: &Netlist, care: &Care) -> Result<Question, ClausesFault>
    requires { IsCareOf net.now care.now }
    ensures { IfOk result (IsQuestionOf (length net.now.latches) (is_outside net.now care.now)) }
{
    let mut formula = Formula::first(alloc)?;
    let latches = add_columns(alloc, &mut formula, net.latches())?;
    let inside = add_invariant(alloc, &mut formula, care, net.inputs(), &latches)?;
    let columns = ones(alloc, &latches)?;
    let assumed = assume_outside(alloc, net, &latches, inside)?;
    Ok(Question {
        formula,
        columns,
        assumed,
    })
}

/// The least state that the inits permit and that isn't in the invariant. The solver gives up after so many conflicts
/// in one of its searches, or where its clauses are too many.
///
/// The condition is that the care set is the netlist's.
pub fn least_outside(
    alloc: Global,
    net: &Netlist,
    care: &Care,
    conflicts: u64,
) -> Result<Found, AllocError>
    requires { IsCareOf net.now care.now }
    ensures { IfOk result (IsFirstOf (is_outside net.now care.now) (length net.now.latches)) }
{
    match outside_question(alloc, net, care) {
        Ok(question) => ask_least(alloc, &question, conflicts),
        Err(ClausesFault::TooMany) => Ok(Found::Unknown),
        Err(ClausesFault::Memory) => Err(AllocError),
    }
}
