//! The first literal that can be true, by steps that double, and by bisection.

ghost use Rattle.std.specs.Prelude.{ℕ, false, ◌≡◌, ◌<◌, ◌≤◌, ◌-◌, ◌*◌, ◌++◌, ◌∷◌, [], true, length, slice_index, IfOk};
ghost use Rattle.clause_formulas.specs.Formulas.{says};
ghost use Rattle.clause_queries.specs.Bisection.{IsOpen};
ghost use Rattle.clause_queries.specs.Clauses.{IsWithin};
ghost use Rattle.clause_queries.specs.Queries.{AreRising, IsFirst, IsReply};

use crate::query::{Query, Reply};
use clause_formulas::value_of;
use std::alloc::{AllocError, Global};

/// What comes of a search for the first literal that can be true.
#[derive(Clone, Copy)]
pub enum First {
    At(usize),
    Nowhere,
    /// The solver gave up.
    Unknown,
}

// Where the first literal that can be true is: none before `low` can be, and the one at `high` can. Where it is asked next,
// at most so many places past `low`, or in the middle.
#[derive(Clone, Copy)]
struct Interval {
    low: usize,
    high: usize,
    step: usize,
}

// The first literal that is true in the model, of those up to one that is.
fn first_true(literals: &[u32], model: &[bool], last: usize) -> usize
    requires within { last < length literals.now }
    requires last { says model.now (slice_index literals.now last) ≡ true }
    ensures within { result ≤ last }
    ensures is_true { says model.now (slice_index literals.now result) ≡ true }
    ensures before { (place : ℕ) → place < result → says model.now (slice_index literals.now place) ≡ false }
{
    literals[..last]
        .iter()
        .position(|l| value_of(model, *l))
        .unwrap_or(last)
}

impl Query {
    // Asks with one more assumption.
    pub(crate) fn ask_with(
        &mut self,
        alloc: Global,
        assumptions: &[u32],
        literal: u32,
        conflicts: u64,
    ) -> Result<Reply, AllocError>
        requires assumptions { IsWithin self.old.variables assumptions.now }
        requires literal { literal < 2 * self.old.variables }
        ensures unchanged { self.new ≡ self.old }
        ensures reply { IfOk result (IsReply self.old (assumptions.now ++ literal ∷ [])) }
    {
        let mut assumed = assumptions.to_vec(alloc)?;
        assumed.push(literal)?;
        self.ask(alloc, &assumed, conflicts)
    }

    // Asks within an interval, at its middle at the latest, which makes it shorter. False where the solver gave up.
    fn halve(
        &mut self,
        alloc: Global,
        interval: &mut Interval,
        literals: &[u32],
        assumptions: &[u32],
        conflicts: u64,
    ) -> Result<bool, AllocError>
        requires literals { IsWithin self.old.variables literals.now }
        requires assumptions { IsWithin self.old.variables assumptions.now }
        requires rising { AreRising self.old literals.now }
        requires interval { IsOpen self.old literals.now assumptions.now interval.old.low interval.old.high }
        requires some { interval.old.low < interval.old.high }
        ensures unchanged { self.new ≡ self.old }
        ensures interval { IsOpen self.old literals.now assumptions.now interval.new.low interval.new.high }
        ensures shorter { IfOk result (λ halved. halved ≡ true → interval.new.high - interval.new.low < interval.old.high - interval.old.low) }
    {
        let step = interval.step.min((interval.high - interval.low) / 2);
        let middle = interval.low + step;
        match self.ask_with(alloc, assumptions, literals[middle], conflicts)? {
            Reply::Model(model) => {
                interval.high = first_true(literals, &model, middle);
                Ok(true)
            }
            Reply::NoModel => {
                interval.low = middle + 1;
                interval.step = 2 * step + 1;
                Ok(true)
            }
            Reply::Unknown => Ok(false),
        }
    }

    // Halves an interval as long as it is open.
    fn bisect(
        &mut self,
        alloc: Global,
        mut interval: Interval,
        literals: &[u32],
        assumptions: &[u32],
        conflicts: u64,
    ) -> Result<First, AllocError>
        requires literals { IsWithin self.old.variables literals.now }
        requires assumptions { IsWithin self.old.variables assumptions.now }
        requires rising { AreRising self.old literals.now }
        requires interval { IsOpen self.old literals.now assumptions.now interval.low interval.high }
        ensures unchanged { self.new ≡ self.old }
        ensures first { IfOk result (IsFirst self.old literals.now assumptions.now) }
    {
        while interval.low < interval.high {
            if !self.halve(alloc, &mut interval, literals, assumptions, conflicts)? {
                return Ok(First::Unknown);
            }
        }
        Ok(First::At(interval.high))
    }

    /// The first of the literals that is true in some model with each assumption true. Where one is true in a model, the
    /// later ones are. The solver gives up after so many conflicts in one of its searches.
    pub fn first_possible(
        &mut self,
        alloc: Global,
        literals: &[u32],
        assumptions: &[u32],
        conflicts: u64,
    ) -> Result<First, AllocError>
        requires literals { IsWithin self.old.variables literals.now }
        requires assumptions { IsWithin self.old.variables assumptions.now }
        requires rising { AreRising self.old literals.now }
        ensures unchanged { self.new ≡ self.old }
        ensures first { IfOk result (IsFirst self.old literals.now assumptions.now) }
    {
        if literals.is_empty() {
            return Ok(First::Nowhere);
        }
        let last = literals.len() - 1;
        match self.ask_with(alloc, assumptions, literals[last], conflicts)? {
            Reply::Model(model) => {
                let high = first_true(literals, &model, last);
                let interval = Interval {
                    low: 0,
                    high,
                    step: 0,
                };
                self.bisect(alloc, interval, literals, assumptions, conflicts)
            }
            Reply::NoModel => Ok(First::Nowhere),
            Reply::Unknown => Ok(First::Unknown),
        }
    }
}
