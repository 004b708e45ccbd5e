//! Which of some literals can't be true, as far as few conflicts show. What the solver learns of one literal is there for
//! the next, so in a good order few conflicts show much.

ghost use Rattle.std.specs.Prelude.{◌≡◌, IfOk};
ghost use Rattle.clause_queries.specs.Clauses.{IsWithin};
ghost use Rattle.clause_queries.specs.Each.{AreNever};

use crate::each::Candidates;
use crate::query::Query;
use std::alloc::{AllocError, Global};

impl Query {
    /// Marks literals that are true in no model with each assumption true. They are asked for one by one, in their order,
    /// but for those that the model of another one has. The solver gives up on one after so many conflicts, and once it has
    /// given up on so many, no more are asked for. So nothing is said of a literal without a mark.
    pub fn never_each(
        &mut self,
        alloc: Global,
        literals: &[u32],
        assumptions: &[u32],
        conflicts: u64,
        failures: usize,
    ) -> Result<Vec<bool>, AllocError>
        requires literals { IsWithin self.old.variables literals.now }
        requires assumptions { IsWithin self.old.variables assumptions.now }
        ensures unchanged { self.new ≡ self.old }
        ensures each { IfOk result (λ never. AreNever self.old literals.now assumptions.now never.items) }
    {
        let candidates = Candidates {
            literals,
            assumptions,
            conflicts,
        };
        let mut found = vec![in alloc; false; literals.len()]?;
        let mut never = vec![in alloc; false; literals.len()]?;
        let mut left = failures;
        for place in 0..literals.len() {
            match self.is_candidate_possible(alloc, &candidates, place, &mut found)? {
                Some(true) => {}
                Some(false) => never[place] = true,
                None => {
                    left = left.saturating_sub(1);
                    if left == 0 {
                        return Ok(never);
                    }
                }
            }
        }
        Ok(never)
    }
}
