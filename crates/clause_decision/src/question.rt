//! Questions about vectors, as clauses: which of them pass a test.

ghost use Rattle.std.specs.Prelude.{◌≡◌, ℕ, Bool, List, IfOk, IfSome};
ghost use Rattle.clause_queries.specs.Queries.{problem};
ghost use Rattle.clause_queries.specs.Vectors.{IsFirstOf, TellsWhetherAny};
ghost use Rattle.clause_decision.specs.Questions.{IsAskable, IsQuestionOf};

use clause_formulas::Formula;
use clause_queries::{Found, Query, QueryFault};
use std::alloc::{AllocError, Global};

/// Clauses, literals that are the columns of a vector, and literals that are assumed: the vectors of the models in which
/// these are true are those that pass a test.
pub(crate) struct Question {
    pub formula: Formula,
    pub columns: Vec<u32>,
    pub assumed: Vec<u32>,
}

impl Drop for Question {
    fn drop(self) {
        let Question {
            formula: _,
            columns: _,
            assumed: _,
        } = self;
    }
}

/// A query of a formula, or none where that is too large for one.
pub fn query_of(alloc: Global, formula: &Formula) -> Result<Option<Query>, AllocError>
    ensures { IfOk result (λ found. IfSome found (λ query. query ≡ problem formula.now)) }
{
    match Query::of(alloc, formula) {
        Ok(query) => Ok(Some(query)),
        Err(QueryFault::TooMany) => Ok(None),
        Err(QueryFault::Memory) => Err(AllocError),
    }
}

/// The least vector that passes the test of a question.
pub(crate) fn ask_least(
    alloc: Global,
    question: &Question,
    conflicts: u64,
) -> Result<Found, AllocError>
    requires { IsAskable question.now }
    ensures { (width : ℕ) (test : List Bool → Bool) → IsQuestionOf width test question.now → IfOk result (IsFirstOf test width) }
{
    let Some(mut query) = query_of(alloc, &question.formula)? else {
        return Ok(Found::Unknown);
    };
    query.least_vector(alloc, &question.columns, &question.assumed, conflicts)
}

/// Whether any vector passes the test of a question.
pub(crate) fn ask_any(
    alloc: Global,
    question: &Question,
    conflicts: u64,
) -> Result<Option<bool>, AllocError>
    requires { IsAskable question.now }
    ensures { (width : ℕ) (test : List Bool → Bool) → IsQuestionOf width test question.now → IfOk result (TellsWhetherAny test width) }
{
    let Some(mut query) = query_of(alloc, &question.formula)? else {
        return Ok(None);
    };
    query.is_possible(alloc, &question.assumed, conflicts)
}
