//! Gates that are unknown at a care vector.

ghost use Rattle.std.specs.Prelude.{◌≡◌, ◌<◌, ◌∷◌, [], ℕ, Bool, List, true, length, All, IfOk, IfSome};
ghost use Rattle.care_sets.specs.Binding.{IsCareOf};
ghost use Rattle.care_sets.specs.Care.{CareSet};
ghost use Rattle.ternary_clauses.specs.Encoding.{gate_rails};
ghost use Rattle.clause_formulas.specs.Formulas.{negation as negation_of, IsFormula};
ghost use Rattle.ternary_clauses.specs.Rails.{AreWithin};
ghost use Rattle.netlist.specs.declared.parts.Parts.{Parts};
ghost use Rattle.netlist.specs.Netlists.{count, columns, is_marked};
ghost use Rattle.clause_queries.specs.Clauses.{IsWithin};
ghost use Rattle.clause_queries.specs.Each.{TellEach};
ghost use Rattle.clause_queries.specs.Queries.{problem};
ghost use Rattle.clause_queries.specs.Vectors.{IsFirstOf};
ghost use Rattle.clause_decision.specs.Cones.{IsCone};
ghost use Rattle.clause_decision.specs.Questions.{IsQuestionOf};
ghost use Rattle.clause_decision.specs.Scopes.{AreInScope, IsScopeOf};
ghost use Rattle.refusals.specs.Tests.{is_unknown_at};
ghost use Rattle.clause_decision.specs.Tests.{TellsFirstUnknown, TellEachUnknown};
ghost use Rattle.clause_decision.specs.Unknowns.{unknown_literals, AreRisingIn, TellUnknowns};

use crate::care::ones;
use crate::cones::{Cone, cone_of};
use crate::question::{Question, ask_least, query_of};
use crate::scope::Scope;
use care_sets::Care;
use clause_formulas::negation;
use clause_queries::{First, Found};
use netlist::Netlist;
use std::alloc::{AllocError, Global};
use ternary_clauses::{ClausesFault, Rails, add_any};

/// The literal that says that a gate is unknown.
fn unknown_of(net: &Netlist, rails: &[Rails], gate: u32) -> u32
    requires gate { gate < length net.now.gates }
    requires width { length rails.now ≡ count net.now }
    ensures { result ≡ negation_of (gate_rails net.now rails.now gate).known }
{
    negation(rails[net.gate_sig(gate).0 as usize].known)
}

/// The literals that say that these gates are unknown.
fn literals_of(
    alloc: Global,
    net: &Netlist,
    rails: &[Rails],
    gates: &[u32],
) -> Result<Vec<u32>, AllocError>
    requires gates { All (λ n. n < length net.now.gates) gates.now }
    requires width { length rails.now ≡ count net.now }
    ensures { IfOk result (λ literals. literals.items ≡ unknown_literals net.now rails.now gates.now) }
{
    gates
        .iter()
        .map(|gate| unknown_of(net, rails, *gate))
        .collect(alloc)
}

/// A cone, and literals that say whether one of the first so many gates is unknown.
pub(crate) struct Unknowns {
    pub cone: Cone,
    pub sums: Vec<u32>,
}

impl Drop for Unknowns {
    fn drop(self) {
        let Unknowns { cone: _, sums: _ } = self;
    }
}

/// Adds literals to a cone that say whether one of the first so many gates is unknown.
fn add_unknowns(
    alloc: Global,
    mut cone: Cone,
    net: &Netlist,
    gates: &[u32],
) -> Result<Unknowns, ClausesFault>
    requires gates { All (λ n. n < length net.now.gates) gates.now }
    requires width { length cone.rails.items ≡ count net.now }
    requires formula { IsFormula cone.formula }
    requires within { All (AreWithin cone.formula.variables) cone.rails.items }
    ensures { (care : CareSet) (marks : List Bool) → IsCone net.now care marks cone.formula cone.rails.items cone.inside cone.allowed →
        IfOk result (λ u. TellUnknowns net.now care marks u.cone.formula u.cone.rails.items u.cone.inside u.cone.allowed gates.now u.sums.items) }
{
    let literals = literals_of(alloc, net, &cone.rails, gates)?;
    let sums = add_any(alloc, &mut cone.formula, &literals)?;
    Ok(Unknowns { cone, sums })
}

/// The clauses of a cone, with literals that say whether one of the first so many gates is unknown.
pub(crate) fn unknowns_of(
    alloc: Global,
    net: &Netlist,
    care: &Care,
    scope: &Scope,
    gates: &[u32],
) -> Result<Unknowns, ClausesFault>
    requires care { IsCareOf net.now care.now }
    requires scope { IsScopeOf net.now scope.now }
    requires gates { All (λ n. n < length net.now.gates) gates.now }
    ensures { IfOk result (λ u. TellUnknowns net.now care.now scope.now.gates u.cone.formula u.cone.rails.items u.cone.inside u.cone.allowed gates.now u.sums.items) }
{
    let cone = cone_of(alloc, net, care, scope)?;
    add_unknowns(alloc, cone, net, gates)
}

/// The place of the first gate that is unknown at some care vector.
fn ask_first(alloc: Global, asked: &Unknowns, conflicts: u64) -> Result<First, AllocError>
    requires askable { AreRisingIn asked.now }
    ensures { (net : Parts) (care : CareSet) (marks : List Bool) (gates : List ℕ) →
        TellUnknowns net care marks asked.now.cone.formula asked.now.cone.rails.items asked.now.cone.inside asked.now.cone.allowed gates asked.now.sums.items →
        All (λ n. n < length net.gates) gates → All (λ n. is_marked marks n ≡ true) gates → IfOk result (TellsFirstUnknown net care gates) }
{
    let Some(mut query) = query_of(alloc, &asked.cone.formula)? else {
        return Ok(First::Unknown);
    };
    let care = [asked.cone.inside, asked.cone.allowed];
    query.first_possible(alloc, &asked.sums, &care, conflicts)
}

/// The place of the first of these gates that is unknown at some care vector. The solver gives up after so many
/// conflicts in one of its searches, or where its clauses are too many.
///
/// The condition is that the care set and the scope are the netlist's, and that the gates are in the scope.
pub fn first_unknown(
    alloc: Global,
    net: &Netlist,
    care: &Care,
    scope: &Scope,
    gates: &[u32],
    conflicts: u64,
) -> Result<First, AllocError>
    requires care { IsCareOf net.now care.now }
    requires scope { IsScopeOf net.now scope.now }
    requires gates { All (λ n. n < length net.now.gates) gates.now }
    requires within { AreInScope net.now scope.now gates.now }
    ensures { IfOk result (TellsFirstUnknown net.now care.now gates.now) }
{
    match unknowns_of(alloc, net, care, scope, gates) {
        Ok(asked) => ask_first(alloc, &asked, conflicts),
        Err(ClausesFault::TooMany) => Ok(First::Unknown),
        Err(ClausesFault::Memory) => Err(AllocError),
    }
}

/// For each of these literals whether it is true in some model at a care vector.
fn ask_each(
    alloc: Global,
    cone: &Cone,
    literals: &[u32],
    conflicts: u64,
) -> Result<Option<Vec<bool>>, AllocError>
    requires care { IsWithin cone.now.formula.variables (cone.now.inside ∷ cone.now.allowed ∷ []) }
    requires literals { IsWithin cone.now.formula.variables literals.now }
    ensures { IfOk result (λ told. IfSome told (λ found. TellEach (problem cone.now.formula) literals.now (cone.now.inside ∷ cone.now.allowed ∷ []) found.items)) }
{
    let Some(mut query) = query_of(alloc, &cone.formula)? else {
        return Ok(None);
    };
    query.possible_each(alloc, literals, &[cone.inside, cone.allowed], conflicts)
}

/// For each of these gates whether it is unknown at some care vector, or none where the solver gives up after so many
/// conflicts in one of its searches, or its clauses are too many.
///
/// The condition is that the care set and the scope are the netlist's, and that the gates are in the scope.
pub fn each_unknown(
    alloc: Global,
    net: &Netlist,
    care: &Care,
    scope: &Scope,
    gates: &[u32],
    conflicts: u64,
) -> Result<Option<Vec<bool>>, AllocError>
    requires care { IsCareOf net.now care.now }
    requires scope { IsScopeOf net.now scope.now }
    requires gates { All (λ n. n < length net.now.gates) gates.now }
    requires within { AreInScope net.now scope.now gates.now }
    ensures { IfOk result (λ told. IfSome told (λ found. TellEachUnknown net.now care.now gates.now found.items)) }
{
    let cone = match cone_of(alloc, net, care, scope) {
        Ok(cone) => cone,
        Err(ClausesFault::TooMany) => return Ok(None),
        Err(ClausesFault::Memory) => return Err(AllocError),
    };
    let literals = literals_of(alloc, net, &cone.rails, gates)?;
    ask_each(alloc, &cone, &literals, conflicts)
}

/// The question at which care vectors a gate is unknown.
fn unknown_question(
    alloc: Global,
    net: &Netlist,
    care: &Care,
    scope: &Scope,
    gate: u32,
) -> Result<Question, ClausesFault>
    requires care { IsCareOf net.now care.now }
    requires scope { IsScopeOf net.now scope.now }
    requires gate { gate < length net.now.gates }
    requires within { is_marked scope.now.gates gate ≡ true }
    ensures { IfOk result (IsQuestionOf (columns net.now) (is_unknown_at net.now care.now gate)) }
{
    let cone = cone_of(alloc, net, care, scope)?;
    let width = net.columns() as usize;
    let columns = ones(alloc, &cone.rails[..width])?;
    let unknown = unknown_of(net, &cone.rails, gate);
    let assumed = vec![in alloc; cone.inside, cone.allowed, unknown]?;
    Ok(Question {
        formula: cone.into_formula(),
        columns,
        assumed,
    })
}

/// The least care vector at which a gate is unknown. The solver gives up after so many conflicts in one of its searches, or
/// where its clauses are too many.
///
/// The condition is that the care set and the scope are the netlist's, and that the gate is in the scope.
pub fn least_unknown(
    alloc: Global,
    net: &Netlist,
    care: &Care,
    scope: &Scope,
    gate: u32,
    conflicts: u64,
) -> Result<Found, AllocError>
    requires care { IsCareOf net.now care.now }
    requires scope { IsScopeOf net.now scope.now }
    requires gate { gate < length net.now.gates }
    requires within { is_marked scope.now.gates gate ≡ true }
    ensures { IfOk result (IsFirstOf (is_unknown_at net.now care.now gate) (columns net.now)) }
{
    match unknown_question(alloc, net, care, scope, gate) {
        Ok(question) => ask_least(alloc, &question, conflicts),
        Err(ClausesFault::TooMany) => Ok(Found::Unknown),
        Err(ClausesFault::Memory) => Err(AllocError),
    }
}
