//! The care set as clauses, and whether a vector is one of care.

ghost use Rattle.std.specs.Prelude.{◌≡◌, map, drop, IfOk};
ghost use Rattle.netlist.specs.Netlists.{columns as columns_of};
ghost use Rattle.care_sets.specs.Binding.{IsCareOf};
ghost use Rattle.care_sets.specs.Care.{is_care_vector};
ghost use Rattle.clause_queries.specs.Vectors.{TellsWhetherAny};
ghost use Rattle.clause_decision.specs.Formulas.{IsCareFormula, IsOver};
ghost use Rattle.clause_decision.specs.Questions.{IsQuestionOf};

use crate::models::{add_assumption, add_invariant};
use crate::question::{Question, ask_any};
use care_sets::Care;
use clause_formulas::Formula;
use netlist::Netlist;
use std::alloc::{AllocError, Global};
use ternary_clauses::{ClausesFault, Rails, add_columns};

/// Clauses over the columns of a netlist, with a literal that says whether a vector's state is in the invariant, and one
/// that says whether the assumption allows it.
pub struct CareFormula {
    pub formula: Formula,
    /// The rails of the columns.
    pub columns: Vec<Rails>,
    pub inside: u32,
    pub allowed: u32,
}

impl Drop for CareFormula {
    fn drop(self) {
        let CareFormula {
            formula: _,
            columns: _,
            inside: _,
            allowed: _,
        } = self;
    }
}

impl CareFormula {
    /// The clauses alone.
    pub(crate) fn into_formula(self) -> Formula
        ensures { result ≡ self.formula }
    {
        let CareFormula {
            formula,
            columns: _,
            inside: _,
            allowed: _,
        } = self;
        formula
    }

    /// The rails of the columns alone.
    pub fn into_columns(self) -> Vec<Rails>
        ensures { result ≡ self.columns }
    {
        let CareFormula {
            formula: _,
            columns,
            inside: _,
            allowed: _,
        } = self;
        columns
    }
}

/// The literals that say whether the columns are 1.
pub(crate) fn ones(alloc: Global, rails: &[Rails]) -> Result<Vec<u32>, AllocError>
    ensures { IfOk result (λ literals. literals.items ≡ map (λ r. r.one) rails.now) }
{
    rails.iter().map(|r| r.one).collect(alloc)
}

/// The two literals of a care set, with the columns that they speak of.
fn say_care(
    alloc: Global,
    formula: &mut Formula,
    net: &Netlist,
    care: &Care,
    columns: &[Rails],
) -> Result<(u32, u32), ClausesFault>
    requires care { IsCareOf net.now care.now }
    requires over { IsOver formula.old columns.now (columns_of net.now) }
    ensures { IfOk result (λ said. IsCareFormula net.now care.now formula.new columns.now said.0 said.1) }
{
    let first = net.inputs();
    let inside = add_invariant(alloc, formula, care, first, &columns[first as usize..])?;
    let allowed = add_assumption(alloc, formula, care, columns)?;
    Ok((inside, allowed))
}

/// The care set as clauses.
///
/// The condition is that the care set is the netlist's.
pub fn care_formula(alloc: Global, net: &Netlist, care: &Care) -> Result<CareFormula, ClausesFault>
    requires { IsCareOf net.now care.now }
    ensures { IfOk result (λ f. IsCareFormula net.now care.now f.formula f.columns.items f.inside f.allowed) }
{
    let mut formula = Formula::first(alloc)?;
    let columns = add_columns(alloc, &mut formula, net.columns())?;
    let (inside, allowed) = say_care(alloc, &mut formula, net, care, &columns)?;
    Ok(CareFormula {
        formula,
        columns,
        inside,
        allowed,
    })
}

/// The question which vectors are those of care.
fn care_question(alloc: Global, net: &Netlist, care: &Care) -> Result<Question, ClausesFault>
    requires { IsCareOf net.now care.now }
    ensures { IfOk result (IsQuestionOf (columns_of net.now) (is_care_vector net.now care.now)) }
{
    let said = care_formula(alloc, net, care)?;
    let columns = ones(alloc, &said.columns)?;
    let assumed = vec![in alloc; said.inside, said.allowed]?;
    let formula = said.into_formula();
    Ok(Question {
        formula,
        columns,
        assumed,
    })
}

/// Whether there is a care vector, or none where the solver gives up after so many conflicts, or its clauses are too many.
///
/// The condition is that the care set is the netlist's.
pub fn is_possible(
    alloc: Global,
    net: &Netlist,
    care: &Care,
    conflicts: u64,
) -> Result<Option<bool>, AllocError>
    requires { IsCareOf net.now care.now }
    ensures { IfOk result (TellsWhetherAny (is_care_vector net.now care.now) (columns_of net.now)) }
{
    match care_question(alloc, net, care) {
        Ok(question) => ask_any(alloc, &question, conflicts),
        Err(ClausesFault::TooMany) => Ok(None),
        Err(ClausesFault::Memory) => Err(AllocError),
    }
}
