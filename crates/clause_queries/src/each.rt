//! Which of some literals can be true, each by itself. A model answers for each literal that is true in it, so few
//! questions do.

ghost use Rattle.std.specs.Prelude.{◌≡◌, ◌<◌, ◌||◌, ℕ, false, length, slice_index, slice_index_or, IfOk, IfSome};
ghost use Rattle.clause_formulas.specs.Formulas.{says};
ghost use Rattle.clause_queries.specs.Clauses.{IsWithin};
ghost use Rattle.clause_queries.specs.Each.{IsTold, TellEach};

use crate::query::{Query, Reply};
use clause_formulas::value_of;
use std::alloc::{AllocError, Global};

// Notes which of the literals are true in a model.
pub(crate) fn note(literals: &[u32], model: &[bool], found: &mut [bool])
    requires { length found.old ≡ length literals.now }
    ensures width { length found.new ≡ length found.old }
    ensures each { (i : ℕ) → i < length literals.now → slice_index_or found.new i false ≡ (slice_index_or found.old i false || says model.now (slice_index literals.now i)) }
{
    for place in 0..literals.len() {
        if value_of(model, literals[place]) {
            found[place] = true;
        }
    }
}

// What is asked for one literal after another: each with these assumptions, and in so many conflicts.
#[derive(Clone, Copy)]
pub(crate) struct Candidates<'a> {
    pub(crate) literals: &'a [u32],
    pub(crate) assumptions: &'a [u32],
    pub(crate) conflicts: u64,
}

impl Query {
    // Whether the literal at a place can be true, and none where the solver gave up. It is asked for where no model so far
    // has it, and a model marks each literal that it has.
    pub(crate) fn is_candidate_possible(
        &mut self,
        alloc: Global,
        candidates: &Candidates<'_>,
        place: usize,
        found: &mut [bool],
    ) -> Result<Option<bool>, AllocError>
        requires literals { IsWithin self.old.variables candidates.now.literals.now }
        requires assumptions { IsWithin self.old.variables candidates.now.assumptions.now }
        requires place { place < length candidates.now.literals.now }
        requires width { length found.old ≡ length candidates.now.literals.now }
        ensures unchanged { self.new ≡ self.old }
        ensures width { length found.new ≡ length found.old }
        ensures told { IfOk result (λ told. IfSome told (IsTold self.old candidates.now.literals.now candidates.now.assumptions.now place found.old found.new)) }
    {
        if found[place] {
            return Ok(Some(true));
        }
        match self.ask_with(
            alloc,
            candidates.assumptions,
            candidates.literals[place],
            candidates.conflicts,
        )? {
            Reply::Model(model) => {
                note(candidates.literals, &model, found);
                Ok(Some(true))
            }
            Reply::NoModel => Ok(Some(false)),
            Reply::Unknown => Ok(None),
        }
    }

    /// For each of the literals whether it is true in some model with each assumption true, or none where the solver gives
    /// up after so many conflicts in one of its searches.
    pub fn possible_each(
        &mut self,
        alloc: Global,
        literals: &[u32],
        assumptions: &[u32],
        conflicts: u64,
    ) -> Result<Option<Vec<bool>>, AllocError>
        requires literals { IsWithin self.old.variables literals.now }
        requires assumptions { IsWithin self.old.variables assumptions.now }
        ensures unchanged { self.new ≡ self.old }
        ensures each { IfOk result (λ told. IfSome told (λ found. TellEach self.old literals.now assumptions.now found.items)) }
    {
        let candidates = Candidates {
            literals,
            assumptions,
            conflicts,
        };
        let mut found = vec![in alloc; false; literals.len()]?;
        for place in 0..literals.len() {
            let told = self.is_candidate_possible(alloc, &candidates, place, &mut found)?;
            if told.is_none() {
                return Ok(None);
            }
        }
        Ok(Some(found))
    }
}
