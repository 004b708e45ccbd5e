use care_sets::Care;
use refusals::Refusal;

/// What is found of the assumptions under which a netlist is harmless.
pub enum Assumption {
    /// The netlist is accepted on the care set as it is, which has a model.
    Stands,
    /// It is accepted on this care set: the old one, with a stronger assumption in place of its own, or with the first.
    Weakest(Care),
    /// No assumption helps: the invariant fails, or no vector of the care set leaves all observed wires determined.
    Refused(Refusal),
    /// 4,096 rows don't exclude all vectors that leave an observed wire undetermined.
    TooManyRows,
    /// The assumption would have this many gates, over 4,000,000.
    TooLarge { gates: u64 },
}

impl Drop for Assumption {
    fn drop(self) {
        match self {
            Assumption::Stands => {}
            Assumption::Weakest(_) => {}
            Assumption::Refused(_) => {}
            Assumption::TooManyRows => {}
            Assumption::TooLarge { gates: _ } => {}
        }
    }
}
