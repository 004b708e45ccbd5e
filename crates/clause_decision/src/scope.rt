//! Which gates the clauses speak of.

use cyc_base::Items;

/// A mark for each gate of a netlist.
pub struct Scope {
    /// The gates that the clauses speak of: with each of them, those that feed it.
    pub gates: Items<bool>,
    /// Gates that no Boolean vector leaves unknown, so that one variable does for them.
    pub known: Items<bool>,
}

impl Drop for Scope {
    fn drop(self) {
        let Scope { gates: _, known: _ } = self;
    }
}
