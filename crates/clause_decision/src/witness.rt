//! A care vector at which some gate is unknown, whichever the solver finds first.

ghost use Rattle.std.specs.Prelude.{◌≡◌, ◌<◌, ◌≤◌, ◌*◌, ◌-◌, ◌∷◌, [], ℕ, Bool, List, true, false, length, slice_index, All, IfOk};
ghost use Rattle.care_sets.specs.Binding.{IsCareOf};
ghost use Rattle.care_sets.specs.Care.{CareSet};
ghost use Rattle.clause_formulas.specs.Formulas.{says};
ghost use Rattle.netlist.specs.Netlists.{count, is_marked};
ghost use Rattle.clause_queries.specs.Clauses.{IsWithin};
ghost use Rattle.clause_queries.specs.Queries.{problem, IsReply};
ghost use Rattle.clause_decision.specs.Scopes.{AreInScope, IsScopeOf};
ghost use Rattle.clause_decision.specs.Unknowns.{TellUnknowns};
ghost use Rattle.clause_decision.specs.Witnesses.{IsFirstTrueIn, TellsWitness};

use crate::cones::Cone;
use crate::question::query_of;
use crate::scope::Scope;
use crate::unknown::{Unknowns, unknowns_of};
use care_sets::Care;
use clause_formulas::value_of;
use clause_queries::Reply;
use netlist::Netlist;
use std::alloc::{AllocError, Global};
use ternary_clauses::ClausesFault;

/// What comes of a search for a care vector at which one of some gates is unknown.
#[derive(Drop)]
pub enum Witness {
    /// A care vector, and the place of a gate that is unknown at it.
    Found { vector: Vec<bool>, place: usize },
    /// None of the gates is unknown at a care vector.
    Nowhere,
    /// The solver gave up.
    Unknown,
}

/// The place of the first of these literals that is true in a model, of those up to one that is.
fn first_true(literals: &[u32], model: &[bool], last: usize) -> usize
    requires within { last < length literals.now }
    requires last { says model.now (slice_index literals.now last) ≡ true }
    ensures within { result ≤ last }
    ensures is_true { says model.now (slice_index literals.now result) ≡ true }
    ensures before { (place : ℕ) → place < result → says model.now (slice_index literals.now place) ≡ false }
{
    literals[..last]
        .iter()
        .position(|l| value_of(model, *l))
        .unwrap_or(last)
}

/// Asks for a model at a care vector in which a literal is true.
fn ask(alloc: Global, cone: &Cone, literal: u32, conflicts: u64) -> Result<Reply, AllocError>
    requires care { IsWithin cone.now.formula.variables (cone.now.inside ∷ cone.now.allowed ∷ []) }
    requires literal { literal < 2 * cone.now.formula.variables }
    ensures { IfOk result (IsReply (problem cone.now.formula) (cone.now.inside ∷ cone.now.allowed ∷ literal ∷ [])) }
{
    let Some(mut query) = query_of(alloc, &cone.formula)? else {
        return Ok(Reply::Unknown);
    };
    query.ask(alloc, &[cone.inside, cone.allowed, literal], conflicts)
}

/// The vector of a model in which the last sum is true, with a gate that is unknown at it.
fn witness_in(
    alloc: Global,
    net: &Netlist,
    asked: &Unknowns,
    model: &[bool],
) -> Result<Witness, AllocError>
    requires width { length asked.now.cone.rails.items ≡ count net.now }
    requires some { 0 < length asked.now.sums.items }
    requires last { says model.now (slice_index asked.now.sums.items (length asked.now.sums.items - 1)) ≡ true }
    ensures { IfOk result (IsFirstTrueIn net.now asked.now model.now) }
{
    let last = asked.sums.len() - 1;
    let place = first_true(&asked.sums, model, last);
    let vector = asked.cone.vector_in(alloc, net, model)?;
    Ok(Witness::Found { vector, place })
}

/// Asks for a care vector at which one of the gates is unknown.
fn ask_some(
    alloc: Global,
    net: &Netlist,
    asked: &Unknowns,
    conflicts: u64,
) -> Result<Witness, AllocError>
    requires sums { IsWithin asked.now.cone.formula.variables asked.now.sums.items }
    requires care { IsWithin asked.now.cone.formula.variables (asked.now.cone.inside ∷ asked.now.cone.allowed ∷ []) }
    requires width { length asked.now.cone.rails.items ≡ count net.now }
    ensures { (care : CareSet) (marks : List Bool) (gates : List ℕ) →
        TellUnknowns net.now care marks asked.now.cone.formula asked.now.cone.rails.items asked.now.cone.inside asked.now.cone.allowed gates asked.now.sums.items →
        All (λ n. n < length net.now.gates) gates → All (λ n. is_marked marks n ≡ true) gates → IfOk result (TellsWitness net.now care gates) }
{
    if asked.sums.is_empty() {
        return Ok(Witness::Nowhere);
    }
    let last = asked.sums.len() - 1;
    match ask(alloc, &asked.cone, asked.sums[last], conflicts)? {
        Reply::Model(model) => witness_in(alloc, net, asked, &model),
        Reply::NoModel => Ok(Witness::Nowhere),
        Reply::Unknown => Ok(Witness::Unknown),
    }
}

/// A care vector at which one of these gates is unknown, with one that is. Any does, so one question is asked. The solver
/// gives up after so many conflicts, or where its clauses are too many.
///
/// The condition is that the care set and the scope are the netlist's, and that the gates are in the scope.
pub fn some_unknown(
    alloc: Global,
    net: &Netlist,
    care: &Care,
    scope: &Scope,
    gates: &[u32],
    conflicts: u64,
) -> Result<Witness, AllocError>
    requires care { IsCareOf net.now care.now }
    requires scope { IsScopeOf net.now scope.now }
    requires gates { All (λ n. n < length net.now.gates) gates.now }
    requires within { AreInScope net.now scope.now gates.now }
    ensures { IfOk result (TellsWitness net.now care.now gates.now) }
{
    match unknowns_of(alloc, net, care, scope, gates) {
        Ok(asked) => ask_some(alloc, net, &asked, conflicts),
        Err(ClausesFault::TooMany) => Ok(Witness::Unknown),
        Err(ClausesFault::Memory) => Err(AllocError),
    }
}
