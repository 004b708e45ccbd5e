//! The law of decisions, the contract of a function that does nothing.

ghost use Rattle.diagram_decision.specs.Laws.{DecisionsHaveWidths};

/// Each decision has a width, so there is a limit that is always enough.
pub fn widths()
    ensures { DecisionsHaveWidths }
{}
