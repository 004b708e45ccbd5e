//! Whether there is a model at all, and whether there is one of any of some literals.

ghost use Rattle.std.specs.Prelude.{◌≡◌, ℕ, Bool, List, length, IfOk};
ghost use Rattle.clause_queries.specs.Clauses.{IsWithin};
ghost use Rattle.clause_queries.specs.Each.{IsAnyPossible};
ghost use Rattle.clause_queries.specs.Queries.{IsPossible};
ghost use Rattle.clause_queries.specs.Vectors.{Asks, TellsWhetherAny};

use crate::query::{Query, Reply};
use std::alloc::{AllocError, Global};

impl Query {
    /// Whether some model has each assumption true, or none where the solver gives up after so many conflicts.
    pub fn is_possible(
        &mut self,
        alloc: Global,
        assumptions: &[u32],
        conflicts: u64,
    ) -> Result<Option<bool>, AllocError>
        requires { IsWithin self.old.variables assumptions.now }
        ensures unchanged { self.new ≡ self.old }
        ensures possible { IfOk result (IsPossible self.old assumptions.now) }
        ensures vectors { IfOk result (λ possible. (columns : List ℕ) (passes : List Bool → Bool) → Asks self.old columns assumptions.now passes → TellsWhetherAny passes (length columns) possible) }
    {
        match self.ask(alloc, assumptions, conflicts)? {
            Reply::Model(_) => Ok(Some(true)),
            Reply::NoModel => Ok(Some(false)),
            Reply::Unknown => Ok(None),
        }
    }

    /// Whether one of the literals is true in some model with each assumption true. They are asked for one by one, up to the
    /// first that has a model. None where the solver gives up on some, after so many conflicts each, and no other has one.
    pub fn is_any_possible(
        &mut self,
        alloc: Global,
        literals: &[u32],
        assumptions: &[u32],
        conflicts: u64,
    ) -> Result<Option<bool>, AllocError>
        requires literals { IsWithin self.old.variables literals.now }
        requires assumptions { IsWithin self.old.variables assumptions.now }
        ensures unchanged { self.new ≡ self.old }
        ensures any { IfOk result (IsAnyPossible self.old literals.now assumptions.now) }
    {
        let mut refuted = true;
        for literal in literals {
            match self.ask_with(alloc, assumptions, *literal, conflicts)? {
                Reply::Model(_) => return Ok(Some(true)),
                Reply::NoModel => {}
                Reply::Unknown => refuted = false,
            }
        }
        if refuted { Ok(Some(false)) } else { Ok(None) }
    }
}
