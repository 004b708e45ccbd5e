//! The least vector of the models in some columns, column by column.

ghost use Rattle.std.specs.Prelude.{◌≡◌, ◌<◌, ◌*◌, ◌++◌, ◌∷◌, [], ℕ, Bool, true, List, length, map, IfOk, OnOk};
ghost use Rattle.clause_formulas.specs.Formulas.{negation as negation_of};
ghost use Rattle.clause_queries.specs.Clauses.{IsWithin};
ghost use Rattle.clause_queries.specs.Descent.{IsFixed};
ghost use Rattle.clause_queries.specs.Queries.{IsModelUnder};
ghost use Rattle.clause_queries.specs.Vectors.{vector_of, Asks, IsFirstOf, IsFound};

use crate::query::{Query, Reply};
use clause_formulas::{negation, value_of};
use std::alloc::{AllocError, Global};

/// What comes of a search for the least vector.
pub enum Found {
    Least(Vec<bool>),
    /// There is no model.
    NoVector,
    /// The solver gave up.
    Unknown,
}

// The values of the columns in a model.
fn vector(alloc: Global, columns: &[u32], model: &[bool]) -> Result<Vec<bool>, AllocError>
    ensures { IfOk result (λ v. v.items ≡ vector_of columns.now model.now) }
{
    columns.iter().map(|c| value_of(model, *c)).collect(alloc)
}

// So many conflicts are spent at most on whether several columns can be at 0 together, and on a model that is least.
const CONFLICTS_OF_SEVERAL: u64 = 200;

// What is known of the columns to come.
#[derive(Clone, Copy)]
enum Rest {
    // The last model has them as low as can be, as the solver decided them in their order, and at 0.
    Least,
    // The last time, so many of them could be at 0 together.
    Several(usize),
}

// The negations of some literals.
fn negations(alloc: Global, literals: &[u32]) -> Result<Vec<u32>, AllocError>
    ensures { IfOk result (λ negations. negations.items ≡ map negation_of literals.now) }
{
    literals.iter().map(|l| negation(*l)).collect(alloc)
}

// Literals, and after them the negations of others.
fn with_negations(alloc: Global, literals: &[u32], others: &[u32]) -> Result<Vec<u32>, AllocError>
    ensures { IfOk result (λ all. all.items ≡ literals.now ++ map negation_of others.now) }
{
    let mut all = literals.to_vec(alloc)?;
    all.extend_from_slice(&negations(alloc, others)?)?;
    Ok(all)
}

// Whether the first of the columns is at 1.
fn is_first_high(columns: &[u32], model: &[bool]) -> bool {
    columns.first().is_some_and(|c| value_of(model, *c))
}

impl Query {
    // Looks for a model of what is fixed that has all of these columns at 0, and takes it for the last one. It tells whether
    // there is one; soon it gives up.
    fn try_low(
        &mut self,
        alloc: Global,
        fixed: &[u32],
        model: &mut Vec<bool>,
        columns: &[u32],
        conflicts: u64,
    ) -> Result<bool, AllocError>
        requires fixed { IsWithin self.old.variables fixed.now }
        requires columns { IsWithin self.old.variables columns.now }
        ensures unchanged { self.new ≡ self.old }
        ensures model { IfOk result (λ _. IsModelUnder self.old fixed.now model.old.items → IsModelUnder self.old fixed.now model.new.items) }
    {
        let assumed = with_negations(alloc, fixed, columns)?;
        match self.ask(alloc, &assumed, conflicts.min(CONFLICTS_OF_SEVERAL))? {
            Reply::Model(lower) => {
                *model = lower;
                Ok(true)
            }
            Reply::NoModel => Ok(false),
            Reply::Unknown => Ok(false),
        }
    }

    // Looks for a model of what is fixed, and takes it for the last one. It tells whether there is one; soon it gives up.
    fn try_fixed(
        &mut self,
        alloc: Global,
        fixed: &[u32],
        model: &mut Vec<bool>,
        conflicts: u64,
    ) -> Result<bool, AllocError>
        requires fixed { IsWithin self.old.variables fixed.now }
        ensures unchanged { self.new ≡ self.old }
        ensures model { IfOk result (λ _. IsModelUnder self.old fixed.now model.old.items → IsModelUnder self.old fixed.now model.new.items) }
    {
        match self.ask(alloc, fixed, conflicts.min(CONFLICTS_OF_SEVERAL))? {
            Reply::Model(other) => {
                *model = other;
                Ok(true)
            }
            Reply::NoModel => Ok(false),
            Reply::Unknown => Ok(false),
        }
    }

    // Looks for a model of what is fixed by deciding these columns first, in their order and at 0, and takes it for the last
    // one. It tells whether there is one; soon it gives up.
    fn try_least(
        &mut self,
        alloc: Global,
        fixed: &[u32],
        model: &mut Vec<bool>,
        columns: &[u32],
        conflicts: u64,
    ) -> Result<bool, AllocError>
        requires fixed { IsWithin self.old.variables fixed.now }
        requires columns { IsWithin self.old.variables columns.now }
        ensures unchanged { self.new ≡ self.old }
        ensures model { IfOk result (λ _. IsModelUnder self.old fixed.now model.old.items → IsModelUnder self.old fixed.now model.new.items) }
    {
        let low = negations(alloc, columns)?;
        self.prefer(alloc, &low)?;
        let is_found = self.try_fixed(alloc, fixed, model, conflicts)?;
        self.prefer(alloc, &[])?;
        Ok(is_found)
    }

    // Looks for a model of what is fixed that has several of the columns at 0: twice as many as the last time, or half of
    // that, and so on. It tells how many it found.
    fn lower_several(
        &mut self,
        alloc: Global,
        fixed: &[u32],
        model: &mut Vec<bool>,
        columns: &[u32],
        last: usize,
        conflicts: u64,
    ) -> Result<usize, AllocError>
        requires fixed { IsWithin self.old.variables fixed.now }
        requires columns { IsWithin self.old.variables columns.now }
        ensures unchanged { self.new ≡ self.old }
        ensures model { IfOk result (λ _. IsModelUnder self.old fixed.now model.old.items → IsModelUnder self.old fixed.now model.new.items) }
    {
        let mut count = last.saturating_mul(2).min(columns.len());
        while count > 1 {
            if self.try_low(alloc, fixed, model, &columns[..count], conflicts)? {
                return Ok(count);
            }
            count /= 2;
        }
        Ok(1)
    }

    // Where the first of the columns to come is at 1, and the last model isn't known to be least, looks for a lower one of what
    // is fixed.
    fn lower(
        &mut self,
        alloc: Global,
        fixed: &[u32],
        model: &mut Vec<bool>,
        columns: &[u32],
        rest: Rest,
        conflicts: u64,
    ) -> Result<Rest, AllocError>
        requires fixed { IsWithin self.old.variables fixed.now }
        requires columns { IsWithin self.old.variables columns.now }
        ensures unchanged { self.new ≡ self.old }
        ensures model { IfOk result (λ _. IsModelUnder self.old fixed.now model.old.items → IsModelUnder self.old fixed.now model.new.items) }
    {
        match rest {
            Rest::Least => Ok(Rest::Least),
            Rest::Several(last) => {
                if !is_first_high(columns, model) {
                    return Ok(rest);
                }
                if last > 1 && self.try_least(alloc, fixed, model, columns, conflicts)? {
                    return Ok(Rest::Least);
                }
                let count = self.lower_several(alloc, fixed, model, columns, last, conflicts)?;
                Ok(Rest::Several(count))
            }
        }
    }

    // Fixes one more column as low as what is fixed permits: at 0 where the last model has 0 or a new one has, and else
    // at 1. The model is one of what is fixed. False where the solver gave up.
    fn fix_column(
        &mut self,
        alloc: Global,
        fixed: &mut Vec<u32>,
        model: &mut Vec<bool>,
        column: u32,
        conflicts: u64,
    ) -> Result<bool, AllocError>
        requires column { column < 2 * self.old.variables }
        requires fixed { IsWithin self.old.variables fixed.old.items }
        ensures unchanged { self.new ≡ self.old }
        ensures within { OnOk result (IsWithin self.old.variables fixed.new.items) }
        ensures fixed { IfOk result (λ is_fixed. is_fixed ≡ true → (assumptions columns : List ℕ) → IsFixed self.old assumptions columns fixed.old.items model.old.items → IsFixed self.old assumptions (columns ++ column ∷ []) fixed.new.items model.new.items) }
    {
        let place = fixed.len();
        fixed.push(negation(column))?;
        if !value_of(model, column) {
            return Ok(true);
        }
        match self.ask(alloc, fixed, conflicts)? {
            Reply::Model(lower) => {
                *model = lower;
                Ok(true)
            }
            Reply::NoModel => {
                fixed[place] = column;
                Ok(true)
            }
            Reply::Unknown => Ok(false),
        }
    }

    // Fixes each column. False where the solver gave up.
    fn fix_columns(
        &mut self,
        alloc: Global,
        fixed: &mut Vec<u32>,
        model: &mut Vec<bool>,
        columns: &[u32],
        conflicts: u64,
    ) -> Result<bool, AllocError>
        requires columns { IsWithin self.old.variables columns.now }
        requires fixed { IsWithin self.old.variables fixed.old.items }
        ensures unchanged { self.new ≡ self.old }
        ensures fixed { IfOk result (λ are_fixed. are_fixed ≡ true → (assumptions : List ℕ) → IsFixed self.old assumptions [] fixed.old.items model.old.items → IsFixed self.old assumptions columns.now fixed.new.items model.new.items) }
    {
        let mut rest = Rest::Several(2);
        for place in 0..columns.len() {
            rest = self.lower(alloc, fixed, model, &columns[place..], rest, conflicts)?;
            if !self.fix_column(alloc, fixed, model, columns[place], conflicts)? {
                return Ok(false);
            }
        }
        Ok(true)
    }

    // From a model on.
    fn descend(
        &mut self,
        alloc: Global,
        mut model: Vec<bool>,
        columns: &[u32],
        assumptions: &[u32],
        conflicts: u64,
    ) -> Result<Found, AllocError>
        requires columns { IsWithin self.old.variables columns.now }
        requires assumptions { IsWithin self.old.variables assumptions.now }
        requires model { IsModelUnder self.old assumptions.now model.items }
        ensures unchanged { self.new ≡ self.old }
        ensures found { IfOk result (IsFound self.old columns.now assumptions.now) }
    {
        let mut fixed = assumptions.to_vec(alloc)?;
        if !self.fix_columns(alloc, &mut fixed, &mut model, columns, conflicts)? {
            return Ok(Found::Unknown);
        }
        Ok(Found::Least(vector(alloc, columns, &model)?))
    }

    /// The least vector that models with each assumption true have in these columns, 0 before 1, column by column.
    /// The solver gives up after so many conflicts in one of the searches for one column.
    pub fn least_vector(
        &mut self,
        alloc: Global,
        columns: &[u32],
        assumptions: &[u32],
        conflicts: u64,
    ) -> Result<Found, AllocError>
        requires columns { IsWithin self.old.variables columns.now }
        requires assumptions { IsWithin self.old.variables assumptions.now }
        ensures unchanged { self.new ≡ self.old }
        ensures found { IfOk result (IsFound self.old columns.now assumptions.now) }
        ensures first { IfOk result (λ found. (passes : List Bool → Bool) → Asks self.old columns.now assumptions.now passes → IsFirstOf passes (length columns.now) found) }
    {
        match self.ask(alloc, assumptions, conflicts)? {
            Reply::Model(model) => self.descend(alloc, model, columns, assumptions, conflicts),
            Reply::NoModel => Ok(Found::NoVector),
            Reply::Unknown => Ok(Found::Unknown),
        }
    }
}
