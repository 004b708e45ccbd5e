//! The laws of the gates that some values hold open, each the contract of a function that does nothing.

ghost use Rattle.explanations.specs.Laws.{HeldStayUnknown, MoreHoldsOpen, UnionIsHeldOpen, GreatestHoldsOpen, VectorHoldsUnknown, SidesHoldCycle};

/// Gates that the values of some columns hold open are unknown in the fixpoint of each vector that has these
/// values, and whatever more is known of the columns holds them open too.
pub fn held_gates_stay_unknown()
    ensures unknown { HeldStayUnknown }
    ensures more { MoreHoldsOpen }
{}

/// Two sets that are held open are one that is, and so there is a greatest set: gates are held open exactly
/// where they are in it. At a whole vector it has all unknown gates.
pub fn greatest_set_holds_all()
    ensures union { UnionIsHeldOpen }
    ensures greatest { GreatestHoldsOpen }
    ensures vector { VectorHoldsUnknown }
{}

/// What the sides of a cycle say of the signals beside it holds the cycle open wherever it is so, not only at the
/// vector of which the sides were taken.
pub fn sides_hold_cycle_elsewhere()
    ensures { SidesHoldCycle }
{}
