//! Cubes of columns: which of them no care vector is in, and whether each care vector is in one of some.

ghost use Rattle.std.specs.Prelude.{◌≡◌, ◌<◌, ◌∷◌, [], ◌++◌, ◌↔◌, IsTrue, ℕ, List, Bool, true, false, length, map, replicate, All, IfOk, IfSome, OnOk};
ghost use Rattle.netlist.specs.declared.parts.Parts.{Parts};
ghost use Rattle.care_sets.specs.Binding.{IsCareOf};
ghost use Rattle.care_sets.specs.Care.{CareSet};
ghost use Rattle.clause_formulas.specs.Formulas.{IsFormula, IsModel};
ghost use Rattle.ternary_clauses.specs.Rails.{AreWithin};
ghost use Rattle.clause_queries.specs.Clauses.{IsWithin};
ghost use Rattle.clause_queries.specs.Queries.{problem, HasNoModelUnder};
ghost use Rattle.clause_pairs.specs.Apart.{IsCubeOf};
ghost use Rattle.clause_pairs.specs.Cubes.{asked_of, AreColumnsOf, AsksCare, IsRuledOut, IsSaying, LeaveNoneOut, RuleOutEach};
ghost use Rattle.clause_pairs.specs.Missing.{literals_within, misses, missing_literal, AsksMissing, SaysMissing};

use crate::apart::{literal_of, literals_of_cube};
use crate::pairs::Fixed;
use care_sets::Care;
use clause_decision::{CareFormula, care_formula, query_of};
use clause_formulas::{Formula, negation};
use clause_queries::Query;
use cyc_base::Items;
use netlist::Netlist;
use std::alloc::{AllocError, Global};
use std::marker::Model;
use ternary_clauses::{ClausesFault, Rails};

/// Columns with values. A vector that has these is in the cube.
pub struct Cube {
    pub fixed: Items<Fixed>,
}

impl Drop for Cube {
    fn drop(self) {
        let Cube { fixed: _ } = self;
    }
}

/// The care set as clauses, for many questions.
pub struct CareQuestions {
    /// The rails of the columns.
    rails: Vec<Rails>,
    inside: u32,
    allowed: u32,
    query: Query,
}

impl Drop for CareQuestions {
    fn drop(self) {
        let CareQuestions {
            rails: _,
            inside: _,
            allowed: _,
            query: _,
        } = self;
    }
}

impl Model for CareQuestions {
    ghost use Rattle.clause_pairs.specs.Cubes.{AskedCare, CanAsk};

    ghost Value = { AskedCare };

    ghost view = { λ q. record { rails = q.rails.items; inside = q.inside; allowed = q.allowed; problem = q.query } };

    ghost invariant = { λ q. CanAsk (record { rails = q.rails.items; inside = q.inside; allowed = q.allowed; problem = q.query }) };
}

/// The questions of these clauses, or none where they are too many.
fn questions_of(alloc: Global, said: CareFormula) -> Result<Option<CareQuestions>, AllocError>
    requires { IsSaying said.formula said.columns.items said.inside said.allowed }
    ensures { IfOk result (λ found. IfSome found (λ q. q ≡ asked_of said.formula said.columns.items said.inside said.allowed)) }
{
    let Some(query) = query_of(alloc, &said.formula)? else {
        return Ok(None);
    };
    let (inside, allowed) = (said.inside, said.allowed);
    Ok(Some(CareQuestions {
        rails: said.into_columns(),
        inside,
        allowed,
        query,
    }))
}

/// No mark for any of these values.
fn no_marks(alloc: Global, values: &[Fixed]) -> Result<Vec<bool>, AllocError>
    ensures { IfOk result (λ marks. marks.items ≡ replicate (length values.now) false) }
{
    vec![in alloc; false; values.len()]
}

impl CareQuestions {
    /// The care set of a netlist as clauses, or none where they are too many.
    ///
    /// The condition is that the care set is the netlist's.
    pub fn of(
        alloc: Global,
        net: &Netlist,
        care: &Care,
    ) -> Result<Option<CareQuestions>, AllocError>
        requires { IsCareOf net.now care.now }
        ensures { IfOk result (λ found. IfSome found (AsksCare net.now care.now)) }
    {
        match care_formula(alloc, net, care) {
            Ok(said) => questions_of(alloc, said),
            Err(ClausesFault::TooMany) => Ok(None),
            Err(ClausesFault::Memory) => Err(AllocError),
        }
    }

    /// Whether the netlist has these columns.
    fn has_columns(&self, values: &[Fixed]) -> bool
        ensures { IsTrue result ↔ AreColumnsOf self.now values.now }
    {
        values
            .iter()
            .all(|fixed| (fixed.column as usize) < self.rails.len())
    }

    /// The literals of a cube and of the care set.
    fn literals_within(&self, alloc: Global, cube: &[Fixed]) -> Result<Vec<u32>, AllocError>
        requires { AreColumnsOf self.now cube.now }
        ensures { IfOk result (λ assumed. assumed.items ≡ literals_within self.now cube.now) }
    {
        let mut assumed = literals_of_cube(alloc, &self.rails, cube)?;
        assumed.extend_from_slice(&[self.inside, self.allowed])?;
        Ok(assumed)
    }

    /// Whether no care vector is in the cube. False says nothing: it comes too where the solver gives up, after so many
    /// conflicts, and where a column isn't the netlist's.
    pub fn rules_out(
        &mut self,
        alloc: Global,
        cube: &[Fixed],
        conflicts: u64,
    ) -> Result<bool, AllocError>
        ensures unchanged { self.new ≡ self.old }
        ensures out { IfOk result (λ out. out ≡ true → (net : Parts) (care : CareSet) → AsksCare net care self.old → IsRuledOut net care cube.now) }
    {
        if !self.has_columns(cube) {
            return Ok(false);
        }
        let assumed = self.literals_within(alloc, cube)?;
        match self.query.is_possible(alloc, &assumed, conflicts)? {
            Some(possible) => Ok(!possible),
            None => Ok(false),
        }
    }

    /// Marks those of these values that no care vector in the cube has. Nothing is said of a value without a mark: the
    /// solver gives up on one after so many conflicts, and there are none where a column isn't the netlist's.
    pub fn rules_out_each(
        &mut self,
        alloc: Global,
        cube: &[Fixed],
        values: &[Fixed],
        conflicts: u64,
    ) -> Result<Vec<bool>, AllocError>
        ensures unchanged { self.new ≡ self.old }
        ensures out { IfOk result (λ out. (net : Parts) (care : CareSet) → AsksCare net care self.old → RuleOutEach net care cube.now values.now out.items) }
    {
        if !self.has_columns(cube) || !self.has_columns(values) {
            return no_marks(alloc, values);
        }
        let assumed = self.literals_within(alloc, cube)?;
        let literals = literals_of_cube(alloc, &self.rails, values)?;
        self.query
            .never_each(alloc, &literals, &assumed, conflicts, values.len())
    }
}

/// The literal that is false where a column has this value.
fn missing_literal_of(rails: &[Rails], fixed: Fixed) -> u32
    requires { fixed.column < length rails.now }
    ensures { result ≡ missing_literal rails.now fixed }
{
    negation(literal_of(rails, fixed))
}

/// A clause that is true where a cube is missed.
fn missing_clause(alloc: Global, rails: &[Rails], cube: &[Fixed]) -> Result<Vec<u32>, AllocError>
    requires { All (λ fixed. fixed.column < length rails.now) cube.now }
    ensures { IfOk result (λ clause. clause.items ≡ map (missing_literal rails.now) cube.now) }
{
    cube.iter()
        .map(|fixed| missing_literal_of(rails, *fixed))
        .collect(alloc)
}

/// Adds that a cube is missed.
fn add_missing(
    alloc: Global,
    formula: &mut Formula,
    rails: &[Rails],
    cube: &Cube,
) -> Result<(), ClausesFault>
    requires formula { IsFormula formula.old }
    requires rails { All (AreWithin formula.old.variables) rails.now }
    requires cube { All (λ fixed. fixed.column < length rails.now) cube.now.fixed }
    ensures { OnOk result (SaysMissing formula.old formula.new rails.now (cube.now ∷ [])) }
{
    let clause = missing_clause(alloc, rails, cube.fixed.items())?;
    if clause.len() > u32::MAX as usize {
        return Err(ClausesFault::TooMany);
    }
    formula.add_clause(&clause)?;
    Ok(())
}

/// Adds that each of these cubes is missed.
fn add_missing_each(
    alloc: Global,
    formula: &mut Formula,
    rails: &[Rails],
    cubes: &[Cube],
) -> Result<(), ClausesFault>
    requires formula { IsFormula formula.old }
    requires rails { All (AreWithin formula.old.variables) rails.now }
    requires cubes { All (λ cube. All (λ fixed. fixed.column < length rails.now) cube.fixed) cubes.now }
    ensures { OnOk result (SaysMissing formula.old formula.new rails.now cubes.now) }
{
    for cube in cubes {
        add_missing(alloc, formula, rails, cube)?;
    }
    Ok(())
}

/// The care set as clauses, and that all cubes are missed.
fn missing_formula(
    alloc: Global,
    net: &Netlist,
    care: &Care,
    cubes: &[Cube],
) -> Result<CareFormula, ClausesFault>
    requires care { IsCareOf net.now care.now }
    requires columns { All (λ cube. IsCubeOf net.now cube.fixed) cubes.now }
    ensures { IfOk result (AsksMissing net.now care.now cubes.now) }
{
    let mut said = care_formula(alloc, net, care)?;
    add_missing_each(alloc, &mut said.formula, &said.columns, cubes)?;
    Ok(said)
}

/// Whether no model has both literals of care.
fn has_no_model(alloc: Global, said: &CareFormula, conflicts: u64) -> Result<bool, AllocError>
    requires { IsWithin said.now.formula.variables (said.now.inside ∷ said.now.allowed ∷ []) }
    ensures { IfOk result (λ none. none ≡ true → HasNoModelUnder (problem said.now.formula) (said.now.inside ∷ said.now.allowed ∷ [])) }
{
    let Some(mut query) = query_of(alloc, &said.formula)? else {
        return Ok(false);
    };
    match query.is_possible(alloc, &[said.inside, said.allowed], conflicts)? {
        Some(possible) => Ok(!possible),
        None => Ok(false),
    }
}

/// Whether each care vector is in one of these cubes. False says nothing, and comes too where the solver gives up after so
/// many conflicts, or its clauses are too many.
///
/// The condition is that the care set is the netlist's, and that the cubes' columns are.
pub fn leave_none_out(
    alloc: Global,
    net: &Netlist,
    care: &Care,
    cubes: &[Cube],
    conflicts: u64,
) -> Result<bool, AllocError>
    requires care { IsCareOf net.now care.now }
    requires columns { All (λ cube. IsCubeOf net.now cube.fixed) cubes.now }
    ensures { IfOk result (λ none. none ≡ true → LeaveNoneOut net.now care.now cubes.now) }
{
    match missing_formula(alloc, net, care, cubes) {
        Ok(said) => has_no_model(alloc, &said, conflicts),
        Err(ClausesFault::TooMany) => Ok(false),
        Err(ClausesFault::Memory) => Err(AllocError),
    }
}
