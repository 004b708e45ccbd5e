//! Pairs of wires that are never apart on care, with the help of others that are asked first.

ghost use Rattle.std.specs.Prelude.{◌≡◌, ◌<◌, ◌↔◌, [], true, IsTrue, length, map, All, IfOk, OnOk};
ghost use Rattle.care_sets.specs.Binding.{IsCareOf};
ghost use Rattle.ternary_clauses.specs.Apart.{SaysApart};
ghost use Rattle.clause_formulas.specs.Formulas.{IsFormula};
ghost use Rattle.ternary_clauses.specs.Rails.{rails_at};
ghost use Rattle.netlist.specs.Pairs.{IsPairOf};
ghost use Rattle.clause_pairs.specs.Apart.{IsPairIn, ArePairsIn, IsCubeOf, AreNeverApart, AreNeverApartIn};
ghost use Rattle.clause_pairs.specs.Pairs.{fixed_literal, assumed_literals, HasRails, AddsLiteral, AddLiterals, SayPairs, AreAskable, HaveNoModel, HoldsEach, TellPairs, AreRefuted};
ghost use Rattle.clause_queries.specs.Clauses.{IsWithin};
ghost use Rattle.clause_decision.specs.Scopes.{IsScopeOf};

use crate::pairs::{Budget, Fixed, Hint, PairSearch};
use care_sets::Care;
use clause_decision::{Cone, Scope, cone_of, query_of};
use clause_formulas::Formula;
use clause_queries::Query;
use netlist::{Netlist, Pair};
use std::alloc::{AllocError, Global};
use ternary_clauses::{ClausesFault, Rails, add_apart, exchanged};

/// How many hints the solver may give up on: no more are asked for then.
const FAILURES: usize = 1_000;

/// A cone, with a literal for each hint and for each pair.
struct Asked {
    cone: Cone,
    /// The literals of the care set, and of the columns that are fixed.
    assumed: Vec<u32>,
    hints: Vec<u32>,
    pairs: Vec<u32>,
}

impl Drop for Asked {
    fn drop(self) {
        let Asked {
            cone: _,
            assumed: _,
            hints: _,
            pairs: _,
        } = self;
    }
}

/// Adds a literal that is true unless the wires of a pair are known and equal.
fn add_pair(formula: &mut Formula, rails: &[Rails], pair: Pair) -> Result<u32, ClausesFault>
    requires formula { IsFormula formula.old }
    requires rails { HasRails formula.old rails.now pair }
    ensures { IfOk result (SaysApart formula.old formula.new (rails_at rails.now pair.here.0) (rails_at rails.now pair.there.0)) }
{
    let here = rails[pair.here.0 as usize];
    let there = rails[pair.there.0 as usize];
    add_apart(formula, here, there)
}

/// Adds such a literal for each of these pairs.
fn add_pairs(
    alloc: Global,
    formula: &mut Formula,
    rails: &[Rails],
    pairs: &[Pair],
) -> Result<Vec<u32>, ClausesFault>
    requires formula { IsFormula formula.old }
    requires rails { All (HasRails formula.old rails.now) pairs.now }
    ensures { IfOk result (λ literals. SayPairs formula.old formula.new rails.now pairs.now literals.items) }
{
    let mut literals = Vec::new(alloc);
    for pair in pairs {
        literals.push(add_pair(formula, rails, *pair)?)?;
    }
    Ok(literals)
}

/// Adds a literal that is true unless the wires of a hint are known and as it has them.
#[tactic(auto, using(crate::proofs::ApartLemmas::exchanged_rails, crate::proofs::ApartLemmas::apart_adds))]
fn add_hint(formula: &mut Formula, rails: &[Rails], hint: Hint) -> Result<u32, ClausesFault>
    requires formula { IsFormula formula.old }
    requires rails { HasRails formula.old rails.now hint.pair }
    ensures { IfOk result (AddsLiteral formula.old formula.new) }
{
    let here = rails[hint.pair.here.0 as usize];
    let there = rails[hint.pair.there.0 as usize];
    if hint.opposite {
        add_apart(formula, here, exchanged(there))
    } else {
        add_apart(formula, here, there)
    }
}

/// Adds such a literal for each of these hints.
fn add_hints(
    alloc: Global,
    formula: &mut Formula,
    rails: &[Rails],
    hints: &[Hint],
) -> Result<Vec<u32>, ClausesFault>
    requires formula { IsFormula formula.old }
    requires rails { All (λ hint. HasRails formula.old rails.now hint.pair) hints.now }
    ensures { IfOk result (λ literals. AddLiterals formula.old formula.new literals.items) }
{
    let mut literals = Vec::new(alloc);
    for hint in hints {
        literals.push(add_hint(formula, rails, *hint)?)?;
    }
    Ok(literals)
}

/// The literal that says of a column that it has this value.
pub(crate) fn literal_of(rails: &[Rails], fixed: Fixed) -> u32
    requires { fixed.column < length rails.now }
    ensures { result ≡ fixed_literal rails.now fixed }
{
    let column = rails[fixed.column as usize];
    if fixed.value { column.one } else { column.zero }
}

/// Those of all that is fixed.
pub(crate) fn literals_of_cube(
    alloc: Global,
    rails: &[Rails],
    cube: &[Fixed],
) -> Result<Vec<u32>, AllocError>
    requires { All (λ fixed. fixed.column < length rails.now) cube.now }
    ensures { IfOk result (λ literals. literals.items ≡ map (fixed_literal rails.now) cube.now) }
{
    cube.iter()
        .map(|fixed| literal_of(rails, *fixed))
        .collect(alloc)
}

/// Those, and the literals of the care set.
fn assumed_of(alloc: Global, cone: &Cone, cube: &[Fixed]) -> Result<Vec<u32>, AllocError>
    requires { All (λ fixed. fixed.column < length cone.now.rails.items) cube.now }
    ensures { IfOk result (λ assumed. assumed.items ≡ assumed_literals cone.now cube.now) }
{
    let mut assumed = literals_of_cube(alloc, &cone.rails, cube)?;
    assumed.extend_from_slice(&[cone.inside, cone.allowed])?;
    Ok(assumed)
}

/// The clauses of a cone, with a literal for each hint and each pair.
fn asked_of(
    alloc: Global,
    net: &Netlist,
    care: &Care,
    scope: &Scope,
    cube: &[Fixed],
    search: &PairSearch<'_>,
) -> Result<Asked, ClausesFault>
    requires care { IsCareOf net.now care.now }
    requires scope { IsScopeOf net.now scope.now }
    requires hints { All (λ hint. IsPairOf net.now hint.pair) search.now.hints.now }
    requires hints_within { All (λ hint. IsPairIn net.now scope.now hint.pair) search.now.hints.now }
    requires pairs { All (IsPairOf net.now) search.now.pairs.now }
    requires pairs_within { ArePairsIn net.now scope.now search.now.pairs.now }
    requires cube { IsCubeOf net.now cube.now }
    ensures { IfOk result (TellPairs net.now care.now scope.now.gates cube.now search.now.pairs.now) }
{
    let mut cone = cone_of(alloc, net, care, scope)?;
    let hints = add_hints(alloc, &mut cone.formula, &cone.rails, search.hints)?;
    let pairs = add_pairs(alloc, &mut cone.formula, &cone.rails, search.pairs)?;
    let assumed = assumed_of(alloc, &cone, cube)?;
    Ok(Asked {
        cone,
        assumed,
        hints,
        pairs,
    })
}

/// Whether each place has a mark.
fn are_marked(marks: &[bool]) -> bool
    ensures { IsTrue result ↔ All (λ mark. mark ≡ true) marks.now }
{
    marks.iter().all(|mark| *mark)
}

/// Whether each of the pairs' literals is refuted, after those of the hints were asked for with few conflicts each. What the
/// solver learns of them helps.
fn are_refuted_after(
    alloc: Global,
    query: &mut Query,
    hints: &[u32],
    pairs: &[u32],
    budget: Budget,
) -> Result<bool, AllocError>
    requires hints { IsWithin query.old.variables hints.now }
    requires pairs { IsWithin query.old.variables pairs.now }
    ensures unchanged { query.new ≡ query.old }
    ensures refuted { IfOk result (λ refuted. refuted ≡ true → HaveNoModel query.old [] pairs.now) }
{
    let _ = query.never_each(alloc, hints, &[], budget.few, FAILURES)?;
    let never = query.never_each(alloc, pairs, &[], budget.many, 1)?;
    Ok(are_marked(&never))
}

/// Whether each of the pairs' literals is refuted: at once with few conflicts each, or behind the hints with more. A model of
/// one of them, found at once, ends it.
fn ask_pairs(
    alloc: Global,
    query: &mut Query,
    hints: &[u32],
    pairs: &[u32],
    budget: Budget,
) -> Result<bool, AllocError>
    requires hints { IsWithin query.old.variables hints.now }
    requires pairs { IsWithin query.old.variables pairs.now }
    ensures { IfOk result (λ refuted. refuted ≡ true → HaveNoModel query.old [] pairs.now) }
{
    if let Some(possible) = query.is_any_possible(alloc, pairs, &[], budget.few)? {
        return Ok(!possible);
    }
    are_refuted_after(alloc, query, hints, pairs, budget)
}

/// Adds each of these literals as a clause.
fn add_units(formula: &mut Formula, literals: &[u32]) -> Result<(), AllocError>
    requires formula { IsFormula formula.old }
    requires literals { IsWithin formula.old.variables literals.now }
    ensures { OnOk result (HoldsEach formula.old formula.new literals.now) }
{
    for literal in literals {
        formula.add_clause(&[*literal])?;
    }
    Ok(())
}

/// Whether each pair's literal is refuted where all that is assumed holds, at once or behind the hints. What is assumed holds
/// for each question, so it is made a clause: what the solver learns doesn't speak of it.
fn ask_all(alloc: Global, asked: &mut Asked, budget: Budget) -> Result<bool, AllocError>
    requires formula { IsFormula asked.old.cone.formula }
    requires askable { AreAskable asked.old }
    ensures { IfOk result (λ refuted. refuted ≡ true → AreRefuted asked.old) }
{
    add_units(&mut asked.cone.formula, &asked.assumed)?;
    let Some(mut query) = query_of(alloc, &asked.cone.formula)? else {
        return Ok(false);
    };
    ask_pairs(alloc, &mut query, &asked.hints, &asked.pairs, budget)
}

/// Whether at no care vector that has the values of these columns one wire of one of these pairs is 0 and its other wire 1.
/// False says nothing of them, and comes too where their clauses are too many.
///
/// Each pair is asked for with few conflicts. Where no model has them apart, and the solver gave up on some, the hints are
/// asked for one by one, with few conflicts each, and then the pairs with more. What the solver learns of each pair is there
/// for the next, so hints do most where each stands behind those that feed its wires, from the inputs on (Kuehlmann and Krohm
/// 1997).
///
/// The condition is that the care set and the scope are the netlist's, that columns of it are fixed, and that each wire is
/// an input, a latch or a gate in the scope.
pub fn are_never_apart_in(
    alloc: Global,
    net: &Netlist,
    care: &Care,
    scope: &Scope,
    cube: &[Fixed],
    search: &PairSearch<'_>,
) -> Result<bool, AllocError>
    requires care { IsCareOf net.now care.now }
    requires scope { IsScopeOf net.now scope.now }
    requires hints { All (λ hint. IsPairOf net.now hint.pair) search.now.hints.now }
    requires hints_within { All (λ hint. IsPairIn net.now scope.now hint.pair) search.now.hints.now }
    requires pairs { All (IsPairOf net.now) search.now.pairs.now }
    requires pairs_within { ArePairsIn net.now scope.now search.now.pairs.now }
    requires cube { IsCubeOf net.now cube.now }
    ensures { IfOk result (λ never. never ≡ true → AreNeverApartIn net.now care.now cube.now search.now.pairs.now) }
{
    match asked_of(alloc, net, care, scope, cube, search) {
        Ok(mut asked) => ask_all(alloc, &mut asked, search.budget),
        Err(ClausesFault::TooMany) => Ok(false),
        Err(ClausesFault::Memory) => Err(AllocError),
    }
}

/// The same at no care vector at all.
#[tactic(auto, using(crate::proofs::ApartLemmas::nothing_fixed))]
pub fn are_never_apart(
    alloc: Global,
    net: &Netlist,
    care: &Care,
    scope: &Scope,
    search: &PairSearch<'_>,
) -> Result<bool, AllocError>
    requires care { IsCareOf net.now care.now }
    requires scope { IsScopeOf net.now scope.now }
    requires hints { All (λ hint. IsPairOf net.now hint.pair) search.now.hints.now }
    requires hints_within { All (λ hint. IsPairIn net.now scope.now hint.pair) search.now.hints.now }
    requires pairs { All (IsPairOf net.now) search.now.pairs.now }
    requires pairs_within { ArePairsIn net.now scope.now search.now.pairs.now }
    ensures { IfOk result (λ never. never ≡ true → AreNeverApart net.now care.now search.now.pairs.now) }
{
    are_never_apart_in(alloc, net, care, scope, &[], search)
}
