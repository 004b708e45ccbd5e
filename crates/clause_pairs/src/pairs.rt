use netlist::Pair;

/// Two wires of one netlist that may well be equal on care, or where they are opposite each the complement of the other.
#[derive(Clone, Copy, PartialEq, Eq)]
pub struct Hint {
    pub pair: Pair,
    pub opposite: bool,
}

/// How many conflicts a search may meet.
#[derive(Clone, Copy, PartialEq, Eq)]
pub struct Budget {
    /// For a hint, and for a pair before the hints were asked for.
    pub few: u64,
    /// For a pair behind the hints.
    pub many: u64,
}

impl Budget {
    /// So many times as many, or as many as there can be.
    pub fn times(self, factor: u64) -> Budget {
        Budget {
            few: self.few.saturating_mul(factor),
            many: self.many.saturating_mul(factor),
        }
    }
}

/// A column that has this value.
#[derive(Clone, Copy, PartialEq, Eq)]
pub struct Fixed {
    pub column: u32,
    pub value: bool,
}

/// Pairs that are asked for, with the help of hints.
#[derive(Clone, Copy)]
pub struct PairSearch<'a> {
    pub hints: &'a [Hint],
    pub pairs: &'a [Pair],
    pub budget: Budget,
}
