//! The laws of the ternary fixpoint, each the contract of a function that does nothing.

ghost use Rattle.netlist.specs.Laws.{StepIsMonotone, StepsRise, FixIsFixpoint, FixIsLeast, FixIsBelowClosed, FixIsReached, FixIsMonotone, OneGateStaysBelowFix, FixpointBelowIsFix};

/// The simultaneous step of all gates keeps the order of values, and its iterates from all gates unknown
/// rise (Malik 1994).
pub fn steps_rise()
    ensures monotone { StepIsMonotone }
    ensures rising { StepsRise }
{}

/// The iterate after as many steps as there are gates is the least fixpoint, and each further one equals it.
/// It keeps the order of vectors.
pub fn steps_reach_least_fixpoint()
    ensures fixpoint { FixIsFixpoint }
    ensures least { FixIsLeast }
    ensures closed { FixIsBelowClosed }
    ensures reached { FixIsReached }
    ensures monotone { FixIsMonotone }
{}

/// Gates that are computed one by one stay below the fixpoint, and stand still nowhere else.
pub fn gates_one_by_one_reach_it()
    ensures one_gate { OneGateStaysBelowFix }
    ensures below { FixpointBelowIsFix }
{}
