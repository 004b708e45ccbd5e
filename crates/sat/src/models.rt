ghost use Rattle.std.specs.Prelude.{◌≡◌, ◌<◌, IfOk, MatchOption, length, true, map};
ghost use Rattle.sat.specs.Cnf.{Models, IsSatisfied};
ghost use Rattle.sat.specs.Values.{is_true as holds_true, valuation};

use crate::clauses::Clauses;
use crate::lit::Lit;
use crate::trail::{Trail, is_true};
use crate::values::Truth;
use std::alloc::{AllocError, Global};

/// Whether some literal of a clause is true.
fn is_satisfied(trail: &Trail, clause: &[Lit]) -> bool
    ensures { result ≡ true → IsSatisfied (valuation trail.now.values.items) clause.now }
{
    for lit in clause {
        if is_true(trail, *lit) {
            return true;
        }
    }
    false
}

/// The first clause of a formula in which no literal is true.
pub(crate) fn first_unsatisfied(trail: &Trail, formula: &Clauses) -> Option<u32>
    ensures { MatchOption result (Models (valuation trail.now.values.items) formula.now) (λ number. number < length formula.now) }
{
    for number in 0..formula.len() {
        if !is_satisfied(trail, formula.clause(number)) {
            return Some(number);
        }
    }
    None
}

fn is_true_value(value: Truth) -> bool
    ensures { result ≡ holds_true value }
{
    match value {
        Truth::True => true,
        Truth::Open => false,
        Truth::False => false,
    }
}

/// Which variables are true.
pub(crate) fn model_of(alloc: Global, values: &[Truth]) -> Result<Vec<bool>, AllocError>
    ensures { IfOk result (λ model. model.items ≡ map holds_true values.now) }
{
    values
        .iter()
        .map(|value| is_true_value(*value))
        .collect(alloc)
}
