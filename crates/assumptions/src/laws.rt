//! The laws of weakest assumptions, each the contract of a function that does nothing.

ghost use Rattle.assumptions.specs.Laws.{WeakestIsExact, ExcludedAreOpen};

/// Within the invariant a weakest assumption lets a vector through just where the old one does and each observed wire is
/// determined at it. Whichever rows are excluded, these vectors stay.
pub fn weakest_is_exact()
    ensures exact { WeakestIsExact }
    ensures keeps { ExcludedAreOpen }
{}
