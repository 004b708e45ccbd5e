//! The law of queries, the contract of a function that does nothing.

ghost use Rattle.clause_queries.specs.Laws.{ModelsAreOfFormula};

/// What a query of a formula holds as models are the models of the formula.
pub fn models_are_of_formula()
    ensures { ModelsAreOfFormula }
{}
